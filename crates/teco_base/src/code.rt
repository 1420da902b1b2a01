//! The codes.
ghost use Rattle.std.specs.Prelude.{◌≡◌};
ghost use Rattle.teco_base.specs.Code.{code_name};

/// Why a command string stopped. `Lim`, `Mem`, `Fnf`, `Inp` and `Out` are typed for stops that are
/// no command's fault.
#[derive(Clone, Copy, Debug, PartialEq, Eq)]
pub enum Code {
    /// An argument that is missing, malformed or refused.
    Arg,
    /// Nothing before a comma.
    Nac,
    /// A negative number before a comma.
    Nca,
    /// A divisor of zero.
    Div,
    /// The pointer or a bound would be off the buffer.
    Pop,
    /// A deletion beyond an end of the buffer.
    Dtb,
    /// An insertion with both a text and an argument.
    Iia,
    /// No command, or a modifier that the command does not allow.
    Ill,
    /// No register name.
    Iqn,
    /// A search text that cannot be read.
    Ice,
    /// A failed search.
    Srh,
    /// No such tag ahead.
    Tag,
    /// A `;` outside an iteration.
    Sni,
    /// A `>` outside an iteration.
    Bni,
    /// A pop from an empty push-down list.
    Pes,
    /// The command string ends too early.
    Utc,
    /// A macro ends too early.
    Utm,
    /// No input file.
    Nfi,
    /// No output file.
    Nfo,
    /// A yank that would lose text.
    Yca,
    /// An output file is open already.
    Ofo,
    /// The buffer or a text would be too long.
    Ful,
    /// The step limit is reached.
    Lim,
    /// Memory was refused.
    Mem,
    /// A file could not be opened for input.
    Fnf,
    /// The input could not be read.
    Inp,
    /// The output could not be opened, written or closed.
    Out,
}

impl Code {
    /// Its three letters, as they are typed after `?`.
    pub fn name(self) -> &'static [u8; 3]
        ensures { result.now ≡ code_name self }
    {
        match self {
            Code::Arg => b"ARG",
            Code::Nac => b"NAC",
            Code::Nca => b"NCA",
            Code::Div => b"DIV",
            Code::Pop => b"POP",
            Code::Dtb => b"DTB",
            Code::Iia => b"IIA",
            Code::Ill => b"ILL",
            Code::Iqn => b"IQN",
            Code::Ice => b"ICE",
            Code::Srh => b"SRH",
            Code::Tag => b"TAG",
            Code::Sni => b"SNI",
            Code::Bni => b"BNI",
            Code::Pes => b"PES",
            Code::Utc => b"UTC",
            Code::Utm => b"UTM",
            Code::Nfi => b"NFI",
            Code::Nfo => b"NFO",
            Code::Yca => b"YCA",
            Code::Ofo => b"OFO",
            Code::Ful => b"FUL",
            Code::Lim => b"LIM",
            Code::Mem => b"MEM",
            Code::Fnf => b"FNF",
            Code::Inp => b"INP",
            Code::Out => b"OUT",
        }
    }
}
