ghost use Rattle.std.specs.Prelude.{◌≡◌};
ghost use Rattle.command_words.specs.Arguments.{rules_in};
ghost use Rattle.command_words.specs.Commands.{name_of, rules_of, word_of};

/// What an option or a flag asks for.
#[derive(Clone, Copy, Debug, PartialEq, Eq)]
pub enum Form {
    /// A flag: one word, without a text.
    Flag,
    /// An option with a text, which may be left out.
    Optional,
    /// An option with a text, which must be there.
    Required,
}

/// An option or a flag of a command.
#[derive(Clone, Copy, Debug)]
pub(crate) struct Argument {
    /// Its name, without the two hyphens before it.
    pub name: &'static str,
    pub form: Form,
}

/// The commands, by their names.
#[derive(Clone, Copy, Debug, PartialEq, Eq)]
pub enum CommandName {
    Replay,
    Show,
    Check,
    Canon,
    Pcap,
    Collect,
    Send,
    Relay,
    Agent,
    Trial,
}

static NONE: [Argument; 0] = [];

// The options that set the limits of a collector, and the flag for the lines of interfaces.
static REPLAY: [Argument; 6] = [
    Argument {
        name: "streams",
        form: Form::Optional,
    },
    Argument {
        name: "sources",
        form: Form::Optional,
    },
    Argument {
        name: "datagram-width",
        form: Form::Optional,
    },
    Argument {
        name: "sample-width",
        form: Form::Optional,
    },
    Argument {
        name: "boot-slack",
        form: Form::Optional,
    },
    Argument {
        name: "interfaces",
        form: Form::Flag,
    },
];

static CHECK: [Argument; 1] = [Argument {
    name: "zero",
    form: Form::Flag,
}];

static CANON: [Argument; 1] = [Argument {
    name: "migrate",
    form: Form::Flag,
}];

static PCAP: [Argument; 1] = [Argument {
    name: "count",
    form: Form::Flag,
}];

// Those of `replay`, how many receives there are, and where the link listens.
static COLLECT: [Argument; 8] = [
    Argument {
        name: "streams",
        form: Form::Optional,
    },
    Argument {
        name: "sources",
        form: Form::Optional,
    },
    Argument {
        name: "datagram-width",
        form: Form::Optional,
    },
    Argument {
        name: "sample-width",
        form: Form::Optional,
    },
    Argument {
        name: "boot-slack",
        form: Form::Optional,
    },
    Argument {
        name: "interfaces",
        form: Form::Flag,
    },
    Argument {
        name: "turns",
        form: Form::Required,
    },
    Argument {
        name: "listen",
        form: Form::Optional,
    },
];

static SEND: [Argument; 1] = [Argument {
    name: "to",
    form: Form::Optional,
}];

// Those of `collect`, and where each datagram goes.
static RELAY: [Argument; 9] = [
    Argument {
        name: "streams",
        form: Form::Optional,
    },
    Argument {
        name: "sources",
        form: Form::Optional,
    },
    Argument {
        name: "datagram-width",
        form: Form::Optional,
    },
    Argument {
        name: "sample-width",
        form: Form::Optional,
    },
    Argument {
        name: "boot-slack",
        form: Form::Optional,
    },
    Argument {
        name: "interfaces",
        form: Form::Flag,
    },
    Argument {
        name: "turns",
        form: Form::Required,
    },
    Argument {
        name: "listen",
        form: Form::Optional,
    },
    Argument {
        name: "routes",
        form: Form::Required,
    },
];

// Those of `replay`, and the seed and the number of packets of a made run.
static TRIAL: [Argument; 8] = [
    Argument {
        name: "streams",
        form: Form::Optional,
    },
    Argument {
        name: "sources",
        form: Form::Optional,
    },
    Argument {
        name: "datagram-width",
        form: Form::Optional,
    },
    Argument {
        name: "sample-width",
        form: Form::Optional,
    },
    Argument {
        name: "boot-slack",
        form: Form::Optional,
    },
    Argument {
        name: "interfaces",
        form: Form::Flag,
    },
    Argument {
        name: "made",
        form: Form::Optional,
    },
    Argument {
        name: "packets",
        form: Form::Optional,
    },
];

impl CommandName {
    // The command of this name.
    pub(crate) fn named(word: &str) -> Option<CommandName>
        ensures { result ≡ name_of word.now }
    {
        match word {
            "replay" => Some(CommandName::Replay),
            "show" => Some(CommandName::Show),
            "check" => Some(CommandName::Check),
            "canon" => Some(CommandName::Canon),
            "pcap" => Some(CommandName::Pcap),
            "collect" => Some(CommandName::Collect),
            "send" => Some(CommandName::Send),
            "relay" => Some(CommandName::Relay),
            "agent" => Some(CommandName::Agent),
            "trial" => Some(CommandName::Trial),
            _ => None,
        }
    }

    pub(crate) fn word(self) -> &'static str
        ensures { result.now ≡ word_of self }
    {
        match self {
            CommandName::Replay => "replay",
            CommandName::Show => "show",
            CommandName::Check => "check",
            CommandName::Canon => "canon",
            CommandName::Pcap => "pcap",
            CommandName::Collect => "collect",
            CommandName::Send => "send",
            CommandName::Relay => "relay",
            CommandName::Agent => "agent",
            CommandName::Trial => "trial",
        }
    }

    // Its options and flags.
    pub(crate) fn arguments(self) -> &'static [Argument]
        ensures { rules_in result.now ≡ rules_of self }
    {
        match self {
            CommandName::Replay => &REPLAY,
            CommandName::Trial => &TRIAL,
            CommandName::Check => &CHECK,
            CommandName::Pcap => &PCAP,
            CommandName::Canon => &CANON,
            CommandName::Collect => &COLLECT,
            CommandName::Send => &SEND,
            CommandName::Relay => &RELAY,
            CommandName::Show => &NONE,
            CommandName::Agent => &NONE,
        }
    }
}
