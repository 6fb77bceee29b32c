use crate::starting::Start;
use demo_store::Store;
use fragment_intake::Desk;
use report_queue::Latest;
use std::sync::Mutex;

/// What the threads of a run share.
#[derive(Drop)]
pub struct Hall {
    pub start: Start,
    pub store: Mutex<Store>,
    pub desk: Desk,
    pub latest: Latest,
}
