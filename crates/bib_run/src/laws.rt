//! Laws of what a command answers, and of runs of the program, one after another.

ghost use Rattle.bib_run.specs.AnyRun.{any_run_keeps_the_history, a_printed_run_leaves_the_disk};
ghost use Rattle.bib_run.specs.OneAnswer.{one_answer};
ghost use Rattle.bib_run.specs.StoredRuns.{a_run_is_a_session, runs_of_the_program_are_one_session, one_undo_leads_to_the_first_file, one_redo_leads_to_the_last_file, runs_of_renamings_keep_every_record, a_refused_script_leaves_the_disk};

/// The bytes of its file, of its journal and of its input determine the answer of a command, except `explain`, whose
/// pages are data, and `diff`, whose script is one of those that lead from file to file.
pub fn a_command_has_one_answer()
    ensures { one_answer }
{}

/// Runs of `edit`, `import`, `insert`, `undo`, `redo` and `log` over a file and its journal, each over what the run before left,
/// are one session that does the requests that each run accepts, whatever else was refused. So one `undo` of all
/// changes leads to the first file, byte for byte, one `redo` leads to the last file, and renamings keep every record.
pub fn runs_of_the_program_are_one_session()
    ensures each { a_run_is_a_session }
    ensures all { runs_of_the_program_are_one_session }
    ensures first { one_undo_leads_to_the_first_file }
    ensures last { one_redo_leads_to_the_last_file }
    ensures renamed { runs_of_renamings_keep_every_record }
{}

/// With `--all-or-nothing`, a script is stored whole or not at all: a run of `edit` that is refused leaves the file and its
/// journal as they were.
pub fn a_refused_script_leaves_the_disk()
    ensures { a_refused_script_leaves_the_disk }
{}

/// Any run over one file leaves the file and its journal as they were; or it is a session that goes on from what they keep, or, with
/// `--new-journal` and an unfit journal, from the file alone; or it is `forget`, which begins the journal anew and leaves the
/// file. With `--no-journal` it leaves the file of a session that begins with the file, and the journal as it was.
pub fn any_run_keeps_the_history()
    ensures any { any_run_keeps_the_history }
    ensures printed { a_printed_run_leaves_the_disk }
{}
