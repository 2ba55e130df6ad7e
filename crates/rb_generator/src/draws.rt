//! The numbers that the generator draws, and the command that four of them make. `generate` takes its commands from
//! here.
ghost use Rattle.std.specs.Prelude.{◌≡◌, ◌+◌, ◌*◌, ◌%◌, ◌<◌, ◌≤◌, ℕ};
ghost use Rattle.rb_base.specs.Blocks.{IsShape};
ghost use Rattle.rb_generator.specs.Draws.{chosen, cursor_name, drawn, next, number_of};
ghost use Rattle.rb_model.specs.Names.{name_text};
ghost use Rattle.rb_script.specs.Commands.{asked_by, command_of};

use rb_base::Shape;
use rb_model::{Name, Op};
use rb_script::{Command, Request};

const MULTIPLIER: u64 = 6_364_136_223_846_793_005;

const INCREMENT: u64 = 1_442_695_040_888_963_407;

/// The kinds of commands are drawn below this number.
const KINDS: u64 = 100;

/// The sessions that make commands.
const CALLERS: u64 = 8;

/// How many rows a fetch asks for.
const FETCHED: u32 = 4;

/// A sequence of numbers that its first state determines.
#[derive(Drop)]
pub struct Draws {
    pub state: u64,
}

impl Draws {
    /// The next number of 31 bits, by its remainder.
    fn below(&mut self, bound: u64) -> u64
        requires { 1 ≤ bound }
        ensures state { self.new.state ≡ next self.old.state }
        ensures number { result ≡ number_of self.new.state % bound }
        ensures below { result < bound }
    {
        self.state = self.state.wrapping_mul(MULTIPLIER).wrapping_add(INCREMENT);
        (self.state >> 33) % bound
    }

    /// The command that the next four numbers make over a file of that shape. It takes the value where it writes one.
    pub fn command<'a>(&mut self, shape: Shape, value: &'a [u8]) -> Command<'a>
        requires { IsShape shape }
        ensures command { command_of result ≡ drawn shape self.old.state value.now }
        ensures state { self.new.state ≡ next (next (next (next self.old.state))) }
    {
        let kind = self.below(KINDS);
        let s = 1 + self.below(CALLERS) as u16;
        let k = self.below(8 * u64::from(shape.blocks));
        let t = 1 + self.below(u64::from(shape.tables)) as u16;
        let request = command_for(kind, t, k, value);
        Command::Session { s, request }
    }
}

/// The name of each cursor.
fn cursor() -> Name
    ensures { name_text result ≡ cursor_name }
{
    match Name::new(b"c") {
        Some(name) => name,
        None => unreachable!(),
    }
}

/// What a command of a kind, 0 to 99, asks for.
fn command_for<'a>(kind: u64, t: u16, k: u64, value: &'a [u8]) -> Request<'a>
    ensures { (s : ℕ) → asked_by s result ≡ chosen kind s t k value.now }
{
    match kind {
        0..=24 => Request::Write {
            t,
            k,
            op: Op::Insert(value),
        },
        25..=54 => Request::Write {
            t,
            k,
            op: Op::Update(value),
        },
        55..=64 => Request::Write {
            t,
            k,
            op: Op::Delete,
        },
        65..=69 => Request::Lock { t, k },
        70..=79 => Request::Commit,
        80..=84 => Request::Rollback,
        85..=92 => Request::OpenCursor {
            name: cursor(),
            t,
            lo: 0,
            hi: u64::MAX,
        },
        93..=97 => Request::Fetch {
            name: cursor(),
            n: FETCHED,
        },
        98 => Request::CloseCursor { name: cursor() },
        _ => Request::Cancel,
    }
}
