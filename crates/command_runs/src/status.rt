ghost use Rattle.std.specs.Prelude.{◌≡◌, ◌++◌, codes, decimal};
ghost use Rattle.wire_spec.specs.FaultNames.{input_kind_name};

use arrayvec::ArrayString;
use itoa::Buffer;
use wire_spec::InputKind;

/// A line of text, up to 160 bytes.
pub type Line = ArrayString<160>;

/// How a run ended.
#[derive(Clone, Copy, Debug, PartialEq, Eq)]
pub enum Status {
    /// The command did its work.
    Done,
    /// A check read to the end and found a faulty entry.
    Found,
    /// The words name no command.
    Usage,
    /// A read of the source failed.
    ReadFault,
    /// A write to the sink failed.
    WriteFault,
    /// The input is outside of what the command takes: `at` is the offset in bytes, or the line of a script.
    BadInput { at: u128, kind: InputKind },
    /// Memory was lacking.
    Memory,
    /// A call of the link failed.
    LinkFault,
    /// The input has more than 2^48 entries.
    Spent,
}

impl Status {
    ghost use Rattle.command_runs.specs.Statuses.{code_of, status_text};

    /// The exit code, 0 to 8.
    pub fn code(&self) -> u8
        ensures { result ≡ code_of self.now }
    {
        match self {
            Status::Done => 0,
            Status::Found => 1,
            Status::Usage => 2,
            Status::ReadFault => 3,
            Status::WriteFault => 4,
            Status::BadInput { .. } => 5,
            Status::Memory => 6,
            Status::LinkFault => 7,
            Status::Spent => 8,
        }
    }

    /// What went wrong, in a few words; nothing for `Done` and `Found`.
    pub fn text(&self) -> Line
        ensures { result.bytes ≡ status_text self.now }
    {
        let mut line = Line::new();
        match self {
            Status::Done | Status::Found => {}
            Status::Usage => line.push_str("usage"),
            Status::ReadFault => line.push_str("read fault"),
            Status::WriteFault => line.push_str("write fault"),
            Status::BadInput { at, kind } => line = bad_input(*at, *kind),
            Status::Memory => line.push_str("out of memory"),
            Status::LinkFault => line.push_str("link fault"),
            Status::Spent => line.push_str("too many entries"),
        }
        line
    }
}

// Where the input is bad, and how.
fn bad_input(at: u128, kind: InputKind) -> Line
    ensures { result.bytes ≡ codes "bad input at " ++ decimal at ++ codes " kind " ++ input_kind_name kind }
{
    let mut line = Line::new();
    let mut digits = Buffer::new();
    line.push_str("bad input at ");
    line.push_str(digits.format(at));
    line.push_str(" kind ");
    line.push_str(kind_name(kind));
    line
}

// The kind as it is printed.
fn kind_name(kind: InputKind) -> &'static str
    ensures { result.now ≡ input_kind_name kind }
{
    match kind {
        InputKind::Magic => "magic",
        InputKind::Version => "version",
        InputKind::Cut => "cut",
        InputKind::Long => "long",
        InputKind::Padding => "padding",
        InputKind::Item => "item",
        InputKind::Address => "address",
        InputKind::Port => "port",
        InputKind::Count => "count",
        InputKind::After => "after",
        InputKind::Link => "link",
        InputKind::Script => "script",
    }
}
