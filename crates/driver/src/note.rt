//! What is said of the faults of texts.

ghost use Rattle.std.specs.Prelude.{◌≡◌};
ghost use Rattle.driver.specs.Notes.{code_of, note_text};

/// What is said of a fault of a text.
#[derive(Clone, Copy, Debug, PartialEq, Eq)]
pub enum Note {
    /// The text isn't UTF-8 (2.1).
    NotUtf8,
    /// No token begins here (2.2).
    NoToken,
    /// No program goes on like this (Annex P).
    Syntax,
    /// The token is one that the language leaves out.
    LeftOut,
    /// A name has no declaration (8.3).
    UnknownName,
    /// A name is declared a second time (8.3).
    DeclaredTwice,
    /// A declaration isn't visible here (8.3).
    NotVisible,
    /// The name after `end` isn't that of what it ends (6.3).
    EndName,
    /// A policy's name is another (2.8).
    PolicyName,
    /// An expression has another type than is expected (8.6).
    WrongType,
    /// An expression isn't static (4.9).
    NotStatic,
    /// The value of a static expression lies outside its range (4.9).
    StaticRange,
    /// A call may block (9.5).
    BlockingCall,
    /// A parallel construct touches a global variable (9.10).
    GlobalTouched,
    /// Two parts of a parallel construct conflict (9.10.1); the other place is told too.
    Clash,
    /// A rule of chunk specifications is broken (5.5).
    ChunkRule,
    /// A rule of reductions is broken (4.5.10).
    ReductionRule,
    /// A limit of this compiler is passed.
    LimitPassed,
}

impl Note {
    /// The number of its kind of fault, 1 to 12, as in `E05`.
    pub fn code(self) -> u8
        ensures { result ≡ code_of self }
    {
        match self {
            Note::NotUtf8 => 1,
            Note::NoToken => 2,
            Note::Syntax => 3,
            Note::LeftOut => 4,
            Note::UnknownName
            | Note::DeclaredTwice
            | Note::NotVisible
            | Note::EndName
            | Note::PolicyName => 5,
            Note::WrongType => 6,
            Note::NotStatic | Note::StaticRange => 7,
            Note::BlockingCall => 8,
            Note::GlobalTouched => 9,
            Note::Clash => 10,
            Note::ChunkRule | Note::ReductionRule => 11,
            Note::LimitPassed => 12,
        }
    }

    /// Its text, in front of the word or the other place that it speaks of.
    pub fn text(self) -> &'static str
        ensures { result.now ≡ note_text self }
    {
        match self {
            Note::NotUtf8 => "E01 text is not UTF-8",
            Note::NoToken => "E02 no token begins here",
            Note::Syntax => "E03 syntax",
            Note::LeftOut => "E04 left out: ",
            Note::UnknownName => "E05 unknown name",
            Note::DeclaredTwice => "E05 declared twice",
            Note::NotVisible => "E05 not visible here",
            Note::EndName => "E05 end name differs",
            Note::PolicyName => "E05 policy name",
            Note::WrongType => "E06 wrong type",
            Note::NotStatic => "E07 not static",
            Note::StaticRange => "E07 static value out of range",
            Note::BlockingCall => "E08 blocking call",
            Note::GlobalTouched => "E09 global variable in a parallel construct",
            Note::Clash => "E10 clash with ",
            Note::ChunkRule => "E11 chunk rule",
            Note::ReductionRule => "E11 reduction rule",
            Note::LimitPassed => "E12 limit passed",
        }
    }
}
