//! Laws of requests, and of several runs.

ghost use Rattle.bib_journal.specs.OneResult.{one_result};
ghost use Rattle.bib_journal.specs.Runs.{one_opening, runs_are_one_session, sessions_are_one, undoing_all_leads_to_the_first_file, redoing_all_leads_to_the_last_file};

/// A file and its journal open as one history, if they open at all.
pub fn a_journal_keeps_one_history()
    ensures { one_opening }
{}

/// How many requests a session accepts, why it refuses the next one, and what it keeps then is determined by what it kept
/// before, unless memory is refused.
pub fn requests_have_one_result()
    ensures { one_result }
{}

/// Several runs, each from the file and journal that the one before left, do what one session does with all their requests:
/// the file after each accepted request is that of the history of whole files. As many undos as the history has past files,
/// in whatever runs, lead to the first file. As many redos as it has future files lead to the last. The same holds of two
/// sessions, if the second opens what the first one left.
pub fn several_runs_are_one_session()
    ensures one { runs_are_one_session }
    ensures joined { sessions_are_one }
    ensures first { undoing_all_leads_to_the_first_file }
    ensures last { redoing_all_leads_to_the_last_file }
{}
