/// What is called before a worker searches a cube, and after.
pub trait Gate {
    /// Called before the cube is searched.
    fn before(&self, cube: u64);

    /// Called once the cube is answered.
    fn after(&self, cube: u64);
}

/// The gate that is always open.
#[derive(Clone, Copy, Debug)]
pub struct OpenGate;

impl Gate for OpenGate {
    fn before(&self, _cube: u64) {}

    fn after(&self, _cube: u64) {}
}
