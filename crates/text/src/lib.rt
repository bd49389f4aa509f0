// A page: a lent buffer, on which texts are laid one after the other. Every function is total: what would stand past the buffer's end is not stored, and the place where a text ends stops at that end.
#![tactic(auto)]

ghost use Rattle.std.specs.Prelude.{◌≡◌, take};
ghost use Rattle.text.specs.Text.{written};

// A lent buffer, and the place up to which it is written.
#[derive(Drop)]
pub struct Page<'a> {
    pub buffer: &'a mut [u8],
    pub end: usize,
}

impl<'a> Page<'a> {
    // A page that is written from the buffer's start.
    pub fn new(buffer: &'a mut [u8]) -> Page<'a>
        ensures { result ≡ record { buffer = buffer.entry; end = 0 } }
    {
        Page { buffer, end: 0 }
    }

    // Lays a text where the last one ended.
    #[tactic(auto, using(crate::proofs::Laying::laid_stored), unfolding(crate::specs::Text::written))]
    pub fn put(&mut self, text: &[u8])
        ensures { self.new ≡ written self.old text.now }
    {
        let start = self.end.min(self.buffer.len());
        let end = (start + text.len()).min(self.buffer.len());
        self.buffer[start..end].copy_from_slice(&text[..end - start]);
        self.end = end;
    }

    // What is written.
    pub fn text(&self) -> &[u8]
        ensures { result.now ≡ take self.now.end self.now.buffer.now }
    {
        &self.buffer[..self.end.min(self.buffer.len())]
    }
}
