//! The commands of a script. `parse` makes them of lines, and the shell runs them.
ghost use Rattle.std.specs.Prelude.{◌≡◌};
ghost use Rattle.rb_model.specs.Lines as lines;
ghost use Rattle.rb_model.specs.Lines.{IsCommand, caller, spelling};

use rb_model::{Mode, Name, Op};

/// A command, with its parts in range.
#[derive(Debug, Drop)]
pub enum Command<'a> {
    /// What session `s` asks for, which the replies are to.
    Session { s: u16, request: Request<'a> },
    /// `marks`: what each rollback segment has made and given up.
    Marks,
    /// `sessions`: what each session has under way.
    Sessions,
    /// `flush`.
    Flush,
    /// `sweep K`: up to so many changes of dead transactions are put back, 1 to 1,000,000.
    Sweep { changes: u32 },
    /// `checkpoint`.
    Checkpoint,
}

/// What a command asks for as its session.
/// `t` is the number of a table; `k`, `lo` and `hi` are keys.
#[derive(Debug, Drop)]
pub enum Request<'a> {
    /// `insert S T K V`, `update S T K V`, `put S T K V` or `delete S T K`.
    Write {
        t: u16,
        k: u64,
        op: Op<'a>,
    },
    /// `lock S T K`.
    Lock {
        t: u16,
        k: u64,
    },
    /// `commit S`.
    Commit,
    /// `commit S later`: it is made last by a later call.
    CommitLater,
    /// `rollback S`.
    Rollback,
    /// `set S MODE`, of `read-committed`, `read-only` and `serializable`.
    Set {
        mode: Mode,
    },
    /// `savepoint S NAME`.
    Savepoint {
        name: Name,
    },
    /// `rollback S NAME`.
    RollbackTo {
        name: Name,
    },
    /// `open S NAME T LO HI`.
    OpenCursor {
        name: Name,
        t: u16,
        lo: u64,
        hi: u64,
    },
    /// `fetch S NAME N`: up to `n` rows, 1 to 1,000,000.
    Fetch {
        name: Name,
        n: u32,
    },
    /// `close S NAME`.
    CloseCursor {
        name: Name,
    },
    /// `get S T K`.
    Get {
        t: u16,
        k: u64,
    },
    /// `cancel S`: the write with which the session waits is given up.
    Cancel,
}

impl Command<'_> {
    ghost use Rattle.rb_script.specs.Commands.{command_of};

    /// The session that the command names, if it names one.
    pub fn session(&self) -> Option<u16>
        ensures { result ≡ caller (command_of self.now) }
    {
        match self {
            Command::Session { s, request: _ } => Some(*s),
            Command::Marks | Command::Sessions => None,
            Command::Flush | Command::Sweep { changes: _ } | Command::Checkpoint => None,
        }
    }
}

/// No two commands have one spelling.
pub fn one_spelling()
    ensures { (a b : lines.Command) → IsCommand a → IsCommand b → spelling a ≡ spelling b → a ≡ b }
{}
