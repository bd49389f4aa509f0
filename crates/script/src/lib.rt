// A schedule's bytes: records of one byte of kind and a body whose length the kind fixes. The work is done on a slice and an offset; a `Reader` keeps the two together.
#![tactic(auto)]

ghost use Rattle.std.specs.Prelude.{◌≡◌};
ghost use Rattle.script.specs.Script.{kind_of, body_length, entry_at, body_at};

// The kinds of record, each with its byte.
#[derive(Clone, Copy, PartialEq, Eq)]
pub enum Kind {
    Prepare = 0,
    Insert = 1,
    Find = 2,
    Delete = 3,
    Step = 4,
    Steps = 5,
}

// Why no record can be read at an offset.
#[derive(Clone, Copy)]
pub enum Fault {
    // The byte of kind is none of the kinds (30).
    Unknown,
    // The body runs past the input's end (31).
    Cut,
}

// A whole record: its kind, and where the next record starts.
#[derive(Clone, Copy)]
pub struct Record {
    pub kind: Kind,
    pub next: usize,
}

impl TryFrom<u8> for Kind {
    type Error = Fault;

    ghost try_from_gives = { λ byte outcome. outcome ≡ kind_of byte };

    #[tactic(auto, unfolding(crate::specs::Script::kind_of, choice::specs::Choice::pick))]
    fn try_from(byte: u8) -> Result<Kind, Fault> {
        match byte {
            0 => Ok(Kind::Prepare),
            1 => Ok(Kind::Insert),
            2 => Ok(Kind::Find),
            3 => Ok(Kind::Delete),
            4 => Ok(Kind::Step),
            5 => Ok(Kind::Steps),
            _ => Err(Fault::Unknown),
        }
    }
}

impl Kind {
    // How many bytes follow the byte of kind.
    fn body_length(self) -> usize
        ensures { result ≡ body_length self }
    {
        match self {
            Kind::Prepare | Kind::Insert | Kind::Find | Kind::Delete => 5,
            Kind::Step => 1,
            Kind::Steps => 2,
        }
    }
}

// The record at an offset of the input, None where the input ends there or before. The kind is looked at before the length.
// On a slice and an offset, and not on a `Reader`: the scope paper has the reader's functions thin over covered ones.
#[tactic(auto, unfolding(crate::specs::Script::entry_at, choice::specs::Choice::pick))]
pub fn record_at(input: &[u8], at: usize) -> Result<Option<Record>, Fault>
    ensures { result ≡ entry_at input.now at }
{
    let Some(&byte) = input.get(at) else {
        return Ok(None);
    };
    let kind = Kind::try_from(byte)?;
    let long = kind.body_length();
    if input.len() - (at + 1) < long {
        return Err(Fault::Cut);
    }
    Ok(Some(Record {
        kind,
        next: at + 1 + long,
    }))
}

// The body of the record at an offset, as that stretch of the input itself: from past the byte of kind to the next record. Empty where there is no whole record.
#[tactic(auto, unfolding(crate::specs::Script::entry_at, crate::specs::Script::body_at, choice::specs::Choice::pick))]
fn body_at<'a>(input: &'a [u8], at: usize) -> &'a [u8]
    ensures { result.now ≡ body_at input.now at }
{
    match record_at(input, at) {
        Ok(Some(record)) => &input[at + 1..record.next],
        _ => &[],
    }
}

// The input and a place in it, kept together.
#[derive(Clone, Copy)]
pub struct Reader<'a> {
    pub input: &'a [u8],
    pub at: usize,
}

impl<'a> Reader<'a> {
    // A reader at a place of an input.
    pub fn at(input: &'a [u8], at: usize) -> Reader<'a>
        ensures { (result.input ≡ input.entry) × (result.at ≡ at) }
    {
        Reader { input, at }
    }

    // The body of the record at its place, as that stretch of the input itself.
    pub fn body(self) -> &'a [u8]
        ensures { result.now ≡ body_at self.entry.input.now self.entry.at }
    {
        body_at(self.input, self.at)
    }
}

// The body at an offset, through a reader, as that stretch of the input itself: whoever calls it needs no reader of its own.
pub fn body_of<'a>(input: &'a [u8], offset: usize) -> &'a [u8]
    ensures { result.now ≡ body_at input.now offset }
{
    Reader::at(input, offset).body()
}
