// The first words of lines.
ghost use Rattle.std.specs.Prelude.{◌≡◌};
ghost use Rattle.script.specs.Keywords.{keyword, keyword_text};

#[derive(Clone, Copy, PartialEq, Eq, Debug)]
pub enum Keyword {
    Level,
    Calling,
    Answer,
    Hold,
    Retrieve,
    Clearing,
    Disconnect,
    Released,
    Facility,
    Setup,
    Away,
    Collect,
}

const KEYWORDS: [Keyword; 12] = [
    Keyword::Level,
    Keyword::Calling,
    Keyword::Answer,
    Keyword::Hold,
    Keyword::Retrieve,
    Keyword::Clearing,
    Keyword::Disconnect,
    Keyword::Released,
    Keyword::Facility,
    Keyword::Setup,
    Keyword::Away,
    Keyword::Collect,
];

impl Keyword {
    // The word itself.
    fn text(self) -> &'static [u8]
        ensures { result.now ≡ keyword_text self }
    {
        match self {
            Keyword::Level => b"level",
            Keyword::Calling => b"calling",
            Keyword::Answer => b"answer",
            Keyword::Hold => b"hold",
            Keyword::Retrieve => b"retrieve",
            Keyword::Clearing => b"clearing",
            Keyword::Disconnect => b"disconnect",
            Keyword::Released => b"released",
            Keyword::Facility => b"facility",
            Keyword::Setup => b"setup",
            Keyword::Away => b"away",
            Keyword::Collect => b"collect",
        }
    }

    // The keyword that a word is.
    pub fn of(word: &[u8]) -> Option<Keyword>
        ensures { result ≡ keyword word.now }
    {
        KEYWORDS
            .iter()
            .copied()
            .find(|keyword| keyword.text() == word)
    }
}
