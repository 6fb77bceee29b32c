ghost use Rattle.std.specs.Prelude.{List, [], ◌∷◌};
ghost use Rattle.txn.specs.declared.transactions.TxnId.{TxnId};
ghost use Rattle.order_check.specs.declared.remainder.Kind.TheVariants.{Serial, Pending, Violated};
ghost use Rattle.order_check.specs.Explains.{MeetsAllReads};
ghost use Rattle.order_check.specs.Verdict.{IsVerdict};
ghost use Rattle.order_check.specs.Whole.{ExplainsWhole, IsVerdictWhole};
ghost use Rattle.order_check.specs.Known.{Known, AreOpenChoices};
ghost use Rattle.order_check.specs.Settled.{IsSettled, IsLastSettled, IsCutAt, IsCutOf};
ghost use Rattle.order_check.specs.StandsFor.{IsOpenSession};
ghost use Rattle.order_check.specs.Rows.{id, fresh, nothing, not_a_writer, real_split, split_choice, silent_session, pending_in_front, reader_first, write_skew, session_order, pending, arrived, lost_update, gone_read, two_writers, two_writers_read, open_choice, first_cut, cut_gone, cut_writers, cut_rest, overwritten, overwritten_read, overwritten_gone, overwritten_writers, overwritten_rest, unordered_writers, base_read, overwritten_init, unwritten_init, second_source_pending, two_sources, three_fences};

/// A history with nothing in it is serial.
pub fn row_empty()
    ensures { IsVerdictWhole nothing Serial }
{}

/// A reader from the initial state comes before the writer.
pub fn row_reader_first()
    ensures reader_then_writer { ExplainsWhole reader_first (id 1 0 ∷ id 0 0 ∷ []) }
    ensures not_writer_then_reader { ¬ ExplainsWhole reader_first (id 0 0 ∷ id 1 0 ∷ []) }
    ensures verdict { IsVerdictWhole reader_first Serial }
{}

/// Two that each overlook what the other writes have no order.
pub fn row_write_skew()
    ensures { IsVerdictWhole write_skew Violated }
{}

/// Only the order of a session's own transactions rules out the order that meets all reads.
pub fn row_session_order()
    ensures verdict { IsVerdictWhole session_order Violated }
    ensures reads_alone { MeetsAllReads (fresh session_order) (id 1 1 ∷ id 0 0 ∷ id 1 0 ∷ []) }
{}

/// A read from what hasn't come is pending until it comes.
pub fn row_pending_arrives()
    ensures waiting { IsVerdictWhole pending Pending }
    ensures arrived { IsVerdictWhole arrived Serial }
{}

/// Of two that both overwrite what they read, each is known to come before the other.
pub fn row_lost_update()
    ensures known { Known (fresh lost_update) [] (id 0 1) (id 0 1) }
    ensures verdict { IsVerdictWhole lost_update Violated }
{}

/// A read from a transaction that doesn't write the key has no order.
pub fn row_not_a_writer()
    ensures { IsVerdictWhole not_a_writer Violated }
{}

/// No order explains it, though nothing is known to come before itself.
pub fn row_real_split()
    ensures verdict { IsVerdictWhole real_split Violated }
    ensures open_choices { AreOpenChoices (fresh real_split) [] (split_choice 4 1 0 1 ∷ split_choice 5 1 1 0 ∷ split_choice 6 2 2 3 ∷ split_choice 7 2 3 2 ∷ []) }
    ensures no_cycle { (one : TxnId) → ¬ Known (fresh real_split) [] one one }
{}

/// A read from a gone transaction that isn't the key's last gone writer has no order.
pub fn row_gone_read()
    ensures { IsVerdict gone_read Violated }
{}

/// A choice is open until something orders its writers.
pub fn row_open_choice()
    ensures open_choices { AreOpenChoices (fresh two_writers) [] (open_choice ∷ []) }
    ensures known { Known (fresh two_writers_read) [] (id 2 0) (id 1 0) }
    ensures none_open { AreOpenChoices (fresh two_writers_read) [] [] }
{}

/// A fence is settled once all sessions are past it, and a cut at it takes out what stands in front.
pub fn row_first_cut()
    ensures settled { IsSettled (fresh first_cut) (IsOpenSession (fresh first_cut)) (id 0 1) }
    ensures last { IsLastSettled (fresh first_cut) (IsOpenSession (fresh first_cut)) (id 0 1) }
    ensures cut { IsCutAt (fresh first_cut) (id 0 1) cut_gone cut_writers }
    ensures rest { IsCutOf (fresh first_cut) cut_rest cut_gone cut_writers }
    ensures not_past { ¬ IsSettled (fresh first_cut) (IsOpenSession (fresh first_cut)) (id 1 0) }
{}

/// A cut leaves what is behind the fence, also what arrived there before it.
pub fn row_overwritten()
    ensures settled { IsSettled (fresh overwritten) (IsOpenSession (fresh overwritten)) (id 0 2) }
    ensures cut { IsCutAt (fresh overwritten) (id 0 2) overwritten_gone overwritten_writers }
    ensures rest { IsCutOf (fresh overwritten) overwritten_rest overwritten_gone overwritten_writers }
    ensures read { IsCutOf (fresh overwritten_read) gone_read overwritten_gone overwritten_writers }
{}

/// A fence isn't settled where two writers of a key in front of it have no known order.
pub fn row_unordered_writers()
    ensures { ¬ IsSettled (fresh unordered_writers) (IsOpenSession (fresh unordered_writers)) (id 1 1) }
{}

/// A fence isn't settled while an open session has nothing behind it.
pub fn row_silent_session()
    ensures { ¬ IsSettled (fresh silent_session) (IsOpenSession (fresh silent_session)) (id 0 1) }
{}

/// A fence isn't settled while a read in front of it is pending.
pub fn row_pending_in_front()
    ensures verdict { IsVerdictWhole pending_in_front Pending }
    ensures not_settled { ¬ IsSettled (fresh pending_in_front) (IsOpenSession (fresh pending_in_front)) (id 0 1) }
{}

/// A read over a base is met by the key's last gone writer, and one of the initial state where no gone transaction writes
/// the key.
pub fn row_base_read()
    ensures last_writer { IsVerdict base_read Serial }
    ensures overwritten { IsVerdict overwritten_init Violated }
    ensures unwritten { IsVerdict unwritten_init Serial }
{}

/// A read of one key from two sources has no order once both have come.
pub fn row_two_sources()
    ensures waiting { IsVerdictWhole second_source_pending Pending }
    ensures both { IsVerdictWhole two_sources Violated }
{}

/// Of several settled fences the last is the one that comes after the others.
pub fn row_three_fences()
    ensures first { IsSettled (fresh three_fences) (IsOpenSession (fresh three_fences)) (id 0 0) }
    ensures last { IsLastSettled (fresh three_fences) (IsOpenSession (fresh three_fences)) (id 0 1) }
    ensures not_past { ¬ IsSettled (fresh three_fences) (IsOpenSession (fresh three_fences)) (id 1 0) }
{}
