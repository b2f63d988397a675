// The guard over a page's mark.
ghost use Rattle.std.specs.Prelude.{◌≡◌, ◌+◌, ◌<◌, ◌≤◌, cond, false, if◌then◌else◌, length, IfErr};
ghost use Rattle.files.specs.declared.fault.Fault.TheVariants.{PageTooShort};
ghost use Rattle.drawing.specs.Pages.{written, Puts, Kept};

use files::fault::Fault;

// A text that is put on a page from `start` on; it ends at the mark. The mark goes back to where it was, unless the text
// was finished.
pub(crate) struct MarkGuard<'a> {
    mark: &'a mut usize,
    page: &'a mut [u8],
    start: usize,
    pub(crate) finished: bool,
    ghost forward: { start ≤ mark.now },
    ghost within: { mark.now ≤ length page.now },
}

impl<'a> MarkGuard<'a> {
    ghost use Rattle.drawing.specs.Texts.{Continues};

    // An empty text at the mark.
    pub(crate) fn new(page: &'a mut [u8], mark: &'a mut usize) -> MarkGuard<'a>
        requires { mark.old ≤ length page.old }
        ensures references { (result.mark.ghost_name ≡ mark.entry.ghost_name) × (result.page.ghost_name ≡ page.entry.ghost_name) }
        ensures values { (result.mark.now ≡ mark.old) × (result.page.now ≡ page.old) }
        ensures begun { (result.start ≡ mark.old) × (result.finished ≡ false) }
    {
        let start = *mark;
        MarkGuard {
            mark,
            page,
            start,
            finished: false,
        }
    }

    // Puts the bytes behind the mark and moves the mark past them, or refuses and changes nothing.
    fn put(&mut self, bytes: &[u8]) -> Result<(), Fault>
        ensures continued { Continues self.old self.new }
        ensures puts { Puts result self.old.page.now self.new.page.now self.old.mark.now self.new.mark.now bytes.now }
    {
        let at = *self.mark;
        if bytes.len() > self.page.len() - at {
            return Err(Fault::PageTooShort);
        }
        let end = at + bytes.len();
        let page = &mut *self.page;
        page[at..end].copy_from_slice(bytes);
        *self.mark = end;
        Ok(())
    }

    // Puts a word behind the text, with a space between; an empty one is left out.
    #[tactic(auto, using(crate::proofs::Texts::continues_trans))]
    pub(crate) fn put_word(&mut self, word: &[u8]) -> Result<(), Fault>
        ensures continued { Continues self.old self.new }
        ensures refused { IfErr result (λ e. e ≡ PageTooShort) }
    {
        if word.is_empty() {
            return Ok(());
        }
        if *self.mark != self.start {
            self.put(b" ")?;
        }
        self.put(word)
    }
}

impl Drop for MarkGuard<'_> {
    fn drop(self)
        ensures mark { self.exit.0.now ≡ (if self.entry.finished then self.entry.mark.now else self.entry.start) }
        ensures page { self.exit.1.0.now ≡ self.entry.page.now }
    {
        let MarkGuard {
            mark,
            page: _page,
            start,
            finished,
        } = self;
        if !finished {
            *mark = start;
        }
    }
}
