// The variables of a list, one by one.
ghost use Rattle.std.specs.Prelude.{◌≡◌, Some};
ghost use Rattle.mapped.specs.Numbers.{GivesNumber, items_left};

use rules::Rule;

// The variables of a list from a place on, up to its zero; a token that is no literal comes as a refusal and ends them. No place: nothing is left.
#[derive(Clone, Copy)]
pub struct Numbers<'a> {
    line: &'a [u8],
    at: Option<usize>,
}

impl<'a> Numbers<'a> {
    pub fn new(line: &'a [u8], at: usize) -> Numbers<'a>
        ensures { (result.line.now ≡ line.now) × (result.at ≡ Some at) }
    {
        Numbers { line, at: Some(at) }
    }
}

impl<'a> Iterator for Numbers<'a> {
    type Item = Result<usize, Rule>;

    ghost next_gives = { GivesNumber };

    ghost remaining = { items_left };

    #[inline(always)]
    fn next(&mut self) -> Option<Result<usize, Rule>> {
        let at = self.at?;
        self.at = None;
        match lines::literal_at(self.line, at) {
            None => Some(Err(Rule::Malformed)),
            Some((0, _)) => None,
            Some((x, after)) => {
                self.at = Some(after);
                Some(Ok((x / 2) as usize))
            }
        }
    }
}
