// The laws of readings. Each is a function with nothing to do, whose contract is the law.
ghost use Rattle.command_runs.specs.Grammars.{captures, pcap_files, scripts};
ghost use Rattle.command_runs.specs.Readings.{HasOneEnding};

/// An input makes a run of a command that reads a capture end in one way, if no call fails and memory is there.
pub fn captures_end_once()
    ensures { HasOneEnding captures }
{}

/// The same of a command that reads a pcap file.
pub fn pcap_files_end_once()
    ensures { HasOneEnding pcap_files }
{}

/// The same of a command that reads a script.
pub fn scripts_end_once()
    ensures { HasOneEnding scripts }
{}
