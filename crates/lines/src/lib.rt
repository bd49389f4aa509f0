// The lines that a schedule prints, laid on a page: each is words and numbers with one space between them.
#![tactic(auto)]

ghost use Rattle.std.specs.Prelude.{◌≡◌, ◌∷◌, false, true, MatchOption};
ghost use Rattle.names.specs.Names.{ends};
ghost use Rattle.text.specs.Text.{written};
ghost use Rattle.lines.specs.Decimal.{decimal, signed};
ghost use Rattle.lines.specs.Lines.{kind_word, answer_word, kind_named, ended_line, line_text};

use names::{Answer, kind};
use text::Page;

// A line, by what it tells; numbers as the scope paper has them.
#[derive(Clone, Copy)]
pub enum Line {
    // Four numbers, as the line has them: who asks for them, `prepare::Limits`, is above this crate.
    Register {
        m: u32,
        k: u32,
        w: u32,
        l: u32,
    },
    // Five, as `line_text` names them; the struct of the first three, replay's `Operation`, is above this crate.
    Ended {
        worker: u32,
        kind: u32,
        key: u32,
        answer: Answer,
        steps: u32,
    },
    Refused {
        number: u32,
        offset: usize,
    },
    End {
        keys: u32,
        count: u32,
        size: u32,
    },
}

// The word of a kind, where it has one.
#[tactic(auto, unfolding(crate::specs::Lines::kind_word, choice::specs::Choice::pick))]
fn word_of_kind(kind: u32) -> Option<&'static [u8]>
    ensures { MatchOption result (kind_named kind ≡ false) (λ word. (kind_named kind ≡ true) × (word.now ≡ kind_word kind)) }
{
    match kind {
        kind::INSERT => Some(b"insert"),
        kind::FIND => Some(b"find"),
        kind::DELETE => Some(b"delete"),
        _ => None,
    }
}

// The word of an answer, where it ends an operation.
#[tactic(auto, unfolding(crate::specs::Lines::answer_word))]
fn word_of_answer(answer: Answer) -> Option<&'static [u8]>
    ensures { MatchOption result (ends answer ≡ false) (λ word. (ends answer ≡ true) × (word.now ≡ answer_word answer)) }
{
    match answer {
        Answer::Yes => Some(b"yes"),
        Answer::No => Some(b"no"),
        Answer::NoKeyNode => Some(b"full"),
        Answer::NoDummy => Some(b"dummy"),
        _ => None,
    }
}

// A number in decimal, with no zero in front.
#[tactic(auto, using(crate::proofs::Digits::library_decimal))]
fn put_number(page: &mut Page, n: u64)
    ensures { page.new ≡ written page.old (decimal n) }
{
    page.put(itoa::Buffer::new().format(n).as_bytes());
}

// A space, and the word after it.
#[tactic(auto, using(text::proofs::Laying::written_on))]
fn put_word(page: &mut Page, word: &[u8])
    ensures { page.new ≡ written page.old (32 ∷ word.now) }
{
    page.put(b" ");
    page.put(word);
}

// A space, and the number after it.
#[tactic(auto, using(text::proofs::Laying::written_on))]
fn put_next(page: &mut Page, n: u64)
    ensures { page.new ≡ written page.old (32 ∷ decimal n) }
{
    page.put(b" ");
    put_number(page, n);
}

// A space, and the count after it, read as a signed number.
#[tactic(auto, using(text::proofs::Laying::written_on, crate::proofs::Digits::library_signed))]
fn put_signed(page: &mut Page, count: u32)
    ensures { page.new ≡ written page.old (32 ∷ signed count) }
{
    page.put(b" ");
    page.put(itoa::Buffer::new().format(count.cast_signed()).as_bytes());
}

// The line of an operation that ended; nothing where the kind has no word or no operation ended.
#[tactic(auto, using(text::proofs::Laying::written_on), unfolding(crate::specs::Lines::ended_line, choice::specs::Choice::pick))]
fn put_ended(page: &mut Page, worker: u32, kind: u32, key: u32, answer: Answer, steps: u32)
    ensures { page.new ≡ written page.old (ended_line worker kind key answer steps) }
{
    let (Some(what), Some(told)) = (word_of_kind(kind), word_of_answer(answer)) else {
        // The empty text is laid, so that an end past the buffer comes back to the buffer's end.
        return page.put(b"");
    };
    put_number(page, worker.into());
    put_word(page, what);
    put_next(page, key.into());
    put_word(page, told);
    put_next(page, steps.into());
    page.put(b"\n");
}

// A line. This is no `Display`, since a formatter promises its text only where it returns Ok, and a line is always laid.
#[tactic(auto, using(text::proofs::Laying::written_on), unfolding(crate::specs::Lines::register_line, crate::specs::Lines::refused_line, crate::specs::Lines::end_line))]
pub fn put_line(page: &mut Page, line: Line)
    ensures { page.new ≡ written page.old (line_text line) }
{
    match line {
        Line::Register { m, k, w, l } => {
            page.put(b"register");
            put_next(page, m.into());
            put_next(page, k.into());
            put_next(page, w.into());
            put_next(page, l.into());
            page.put(b"\n");
        }
        Line::Ended {
            worker,
            kind,
            key,
            answer,
            steps,
        } => put_ended(page, worker, kind, key, answer, steps),
        Line::Refused { number, offset } => {
            page.put(b"refused");
            put_next(page, number.into());
            put_next(page, offset as u64);
            page.put(b"\n");
        }
        Line::End { keys, count, size } => {
            page.put(b"end");
            put_next(page, keys.into());
            put_signed(page, count);
            put_next(page, size.into());
            page.put(b"\n");
        }
    }
}
