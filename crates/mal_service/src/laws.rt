//! Laws about records and passes, as the contracts of functions without a body.

ghost use Rattle.mal_service.specs.Laws.{AgreeingTellEqual, AnswersAreLegal, OpenedIsFound, RecordsLoseNone, RepliesAreSolo};

/// A record of which each answer and its events are those of the hall's call at that point has a legal history.
pub fn answers_make_a_legal_record()
    ensures { AnswersAreLegal }
{}

/// A pass that has seen that a job was opened is never told that there is no such job: no post and no ask of it is
/// answered so.
pub fn opened_job_is_found()
    ensures { OpenedIsFound }
{}

/// A reply that a pass is told is that of the job's machine, run alone on the job's own events of the record at that
/// point, with its evidence. Two services whose records agree on a job's own events tell equal bytes of it.
pub fn replies_are_solo()
    ensures solo { RepliesAreSolo }
    ensures agree { AgreeingTellEqual }
{}

/// No lease is lost in a legal record: no call of a service recalls one.
pub fn records_lose_none()
    ensures { RecordsLoseNone }
{}
