// Pages opened, and what their records say.
ghost use Rattle.std.specs.Prelude.{◌≡◌, ◌≤◌};
ghost use Rattle.page.specs.Pieces.{empty, data_of};
ghost use Rattle.page.specs.Puts.{opening, opened};

use crate::record::Page;
use fault::{Fault, Refusal};

impl Page {
    // An empty page of one column, to be opened at another breadth.
    pub fn new() -> Page
        ensures { data_of result ≡ empty 1 }
    {
        Page::empty(1)
    }

    // An empty page of this breadth.
    fn empty(breadth: u8) -> Page
        requires { (1 ≤ breadth) × (breadth ≤ 24) }
        ensures { data_of result ≡ empty breadth }
    {
        Page {
            breadth,
            count: 0,
            settings: [0; 12],
            standing: 0,
        }
    }

    // Makes the record an empty page of this breadth. A breadth of 0 or over 24 is refused, and the page stays as it was.
    pub fn open(&mut self, breadth: u8) -> Result<(), Fault>
        ensures answer { result ≡ opening breadth }
        ensures leaves { data_of self.new ≡ opened result breadth (data_of self.old) }
    {
        if !(1..=24).contains(&breadth) {
            return Err(Refusal::Breadth.into());
        }
        *self = Page::empty(breadth);
        Ok(())
    }

    // The breadth in columns.
    pub fn breadth(&self) -> u8
        ensures { result ≡ self.now.breadth }
    {
        self.breadth
    }

    // How many pieces are on the page.
    pub fn count(&self) -> u8
        ensures { result ≡ self.now.count }
    {
        self.count
    }
}
