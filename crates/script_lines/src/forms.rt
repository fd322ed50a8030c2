// The lines of a script, each behind its first word.
ghost use Rattle.std.specs.Prelude.{◌≡◌, option_map};
ghost use Rattle.script_spec.specs.Lines.{MaxLine};
ghost use Rattle.script_spec.specs.Forms.{max_part, sub_part, flow_part, counter_part, packet_part, moment_part, restart_part, reset_part, deliver_part, sub_line as sub_said, flow_line as flow_said, counter_line as counter_said, packet_line as packet_said, poll_line as poll_said, send_line as send_said, restart_line as restart_said, reset_line as reset_said, deliver_line as deliver_said, line_named as named_said, line_in as said_in};
ghost use Rattle.script_spec.specs.Parts.{whole};
ghost use Rattle.script_lines.specs.Shown.{shown};

use crate::ScriptLine;
use script_words::Words;

/// The greatest time at which a boot arrives.
const MOST_TIME: u64 = 9_223_372_036_854_775_807;

/// The greatest value of an interface.
const MOST_INTERFACE: u64 = 1_073_741_823;

fn max_line(words: &mut Words<'_>) -> Option<ScriptLine>
    ensures { option_map shown result ≡ option_map (λ n. MaxLine n) (whole max_part words.old) }
{
    let bytes = words.number(512, 65_535)? as u32;
    words.end()?;
    Some(ScriptLine::Max { bytes })
}

fn sub_line(words: &mut Words<'_>) -> Option<ScriptLine>
    ensures { option_map shown result ≡ option_map sub_said (whole sub_part words.old) }
{
    let id = words.number32()?;
    let address = words.address()?;
    let first = words.named32(b"first", 0)?;
    let at = words.named(b"at", 0, MOST_TIME)?;
    let stage = words.named(b"stage", 1, 1024)? as u32;
    words.end()?;
    Some(ScriptLine::Sub {
        id,
        address,
        first,
        at,
        stage,
    })
}

fn flow_line(words: &mut Words<'_>) -> Option<ScriptLine>
    ensures { option_map shown result ≡ option_map flow_said (whole flow_part words.old) }
{
    let id = words.number32()?;
    let source = words.place()?;
    let rate = words.named32(b"rate", 1)?;
    let first = words.named32(b"first", 0)?;
    let pool = words.named32(b"pool", 0)?;
    let drops = words.named32(b"drops", 0)?;
    let skips = words.skips()?;
    words.end()?;
    Some(ScriptLine::Flow {
        id,
        source,
        rate,
        first,
        pool,
        drops,
        skips,
    })
}

fn counter_line(words: &mut Words<'_>) -> Option<ScriptLine>
    ensures { option_map shown result ≡ option_map counter_said (whole counter_part words.old) }
{
    let id = words.number32()?;
    let source = words.place()?;
    let every = words.named32(b"every", 1)?;
    let first = words.named32(b"first", 0)?;
    words.end()?;
    Some(ScriptLine::Counter {
        id,
        source,
        every,
        first,
    })
}

fn packet_line(words: &mut Words<'_>) -> Option<ScriptLine>
    ensures { option_map shown result ≡ option_map packet_said (whole packet_part words.old) }
{
    let source = words.place()?;
    let input = words.named(b"in", 0, MOST_INTERFACE)? as u32;
    let output = words.named(b"out", 0, MOST_INTERFACE)? as u32;
    let vlan = words.vlan()?;
    let length = words.named32(b"length", 0)?;
    let header = words.header()?;
    words.end()?;
    Some(ScriptLine::Packet {
        source,
        input,
        output,
        vlan,
        length,
        header,
    })
}

fn poll_line(words: &mut Words<'_>) -> Option<ScriptLine>
    ensures { option_map shown result ≡ option_map poll_said (whole moment_part words.old) }
{
    let id = words.number32()?;
    let uptime = words.number32()?;
    words.end()?;
    Some(ScriptLine::Poll { id, uptime })
}

fn send_line(words: &mut Words<'_>) -> Option<ScriptLine>
    ensures { option_map shown result ≡ option_map send_said (whole moment_part words.old) }
{
    let id = words.number32()?;
    let uptime = words.number32()?;
    words.end()?;
    Some(ScriptLine::Send { id, uptime })
}

fn restart_line(words: &mut Words<'_>) -> Option<ScriptLine>
    ensures { option_map shown result ≡ option_map restart_said (whole restart_part words.old) }
{
    let id = words.number32()?;
    let at = words.named(b"at", 0, MOST_TIME)?;
    words.end()?;
    Some(ScriptLine::Restart { id, at })
}

fn reset_line(words: &mut Words<'_>) -> Option<ScriptLine>
    ensures { option_map shown result ≡ option_map reset_said (whole reset_part words.old) }
{
    let flow = words.kind()?;
    let source = words.place()?;
    words.end()?;
    Some(ScriptLine::Reset { flow, source })
}

fn deliver_line(words: &mut Words<'_>) -> Option<ScriptLine>
    ensures { option_map shown result ≡ option_map deliver_said (whole deliver_part words.old) }
{
    let id = words.number32()?;
    let boot = words.number(0, u64::MAX)?;
    let number = words.number(0, u64::MAX)?;
    let at = words.number(0, u64::MAX)?;
    words.end()?;
    Some(ScriptLine::Deliver {
        id,
        boot,
        number,
        at,
    })
}

// What the words behind this one say.
fn line_named(name: &[u8], words: &mut Words<'_>) -> Option<ScriptLine>
    ensures { option_map shown result ≡ named_said name.now words.old }
{
    if name == b"max".as_slice() {
        max_line(words)
    } else if name == b"sub".as_slice() {
        sub_line(words)
    } else if name == b"flow".as_slice() {
        flow_line(words)
    } else if name == b"counter".as_slice() {
        counter_line(words)
    } else if name == b"packet".as_slice() {
        packet_line(words)
    } else if name == b"poll".as_slice() {
        poll_line(words)
    } else if name == b"send".as_slice() {
        send_line(words)
    } else if name == b"restart".as_slice() {
        restart_line(words)
    } else if name == b"reset".as_slice() {
        reset_line(words)
    } else if name == b"deliver".as_slice() {
        deliver_line(words)
    } else {
        None
    }
}

/// What a line says, where it has a form. A space stands between each two words.
#[tactic(auto, unfolding(script_spec::specs::Forms::line_in))]
pub(crate) fn line_in(text: &[u8]) -> Option<ScriptLine>
    ensures { option_map shown result ≡ said_in text.now }
{
    let mut words = Words::new(text, b' ');
    let name = words.next()?;
    line_named(name, &mut words)
}
