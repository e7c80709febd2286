//! What a command does with the journal's file, for whoever opens the file.
ghost use Rattle.std.specs.Prelude.{◌↔◌, IsTrue};
ghost use Rattle.globex_run.specs.Words.{IsWriting, OpensJournal};

use command_words::Command;

/// Whether a command opens the journal: each but `steps` and `rebuild`.
pub fn opens_journal(command: Command) -> bool
    ensures { IsTrue result ↔ OpensJournal command }
{
    !matches!(command, Command::Steps | Command::Rebuild)
}

/// Whether a command writes the journal, so that no other may write it meanwhile: `run`, `drill`, `checkpoint` and `amend`.
pub fn writes_journal(command: Command) -> bool
    ensures { IsTrue result ↔ IsWriting command }
{
    matches!(
        command,
        Command::Run | Command::Drill { .. } | Command::Checkpoint | Command::Amend
    )
}
