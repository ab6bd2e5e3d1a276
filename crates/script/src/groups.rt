// The groups of a script's cases. When a group ends its line is printed, and at the end that of all cases.
ghost use Rattle.std.specs.Prelude.{◌≡◌, IfOk};
ghost use Rattle.script.specs.Tally.{fresh, counted_in};

use super::tally::Tally;
use std::io;

#[derive(Clone, Copy)]
pub(crate) struct Groups<'a> {
    // The name of the group under way; none before the first.
    name: Option<&'a [u8]>,
    group: Tally,
    all: Tally,
}

impl<'a> Groups<'a> {
    pub(crate) fn new() -> Groups<'a>
        ensures group { result.group ≡ fresh }
        ensures all { result.all ≡ fresh }
    {
        Groups {
            name: None,
            group: Tally::new(),
            all: Tally::new(),
        }
    }

    pub(crate) fn begin(&mut self, name: &'a [u8])
        ensures group { self.new.group ≡ fresh }
        ensures all { self.new.all ≡ self.old.all }
    {
        self.name = Some(name);
        self.group = Tally::new();
    }

    // One case more.
    pub(crate) fn count(&mut self, right: bool)
        ensures group { self.new.group ≡ counted_in right self.old.group }
        ensures all { self.new.all ≡ counted_in right self.old.all }
    {
        self.group.count(right);
        self.all.count(right);
    }

    // Prints the line of the group under way.
    pub(crate) fn print_group<R: Print>(&self, rt: &R) -> io::Result<()> {
        match self.name {
            Some(name) => {
                rt.write_all(name)?;
                println!(rt; ": {}", self.group)
            }
            None => Ok(()),
        }
    }

    // Prints the last lines. Answers how many cases came out otherwise.
    pub(crate) fn finish<R: Print>(&self, rt: &R) -> io::Result<u64>
        ensures { IfOk result (λ wrong. wrong ≡ self.now.all.wrong) }
    {
        self.print_group(rt)?;
        println!(rt; "all: {}", self.all)?;
        Ok(self.all.wrong)
    }
}
