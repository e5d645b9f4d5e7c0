// What a call came to, in words.
use crate::desk::{Desk, Sizes, front};
use crate::shown::Shown;
use runs::call::Call;
use std::io;

pub(crate) fn tell_yes(rt: HostRuntime, what: &str, yes: bool) -> io::Result<()> {
    println!(rt; "{what}: {}", if yes { "yes" } else { "NO" })
}

impl Desk<'_> {
    // Makes a call and tells its answer. Where it is refused, all memory is compared with a copy.
    pub(crate) fn step(&mut self, what: &str, call: Call<'_>) -> io::Result<()> {
        let before = self.photo()?;
        match self.call(call) {
            Ok(()) => {
                let Sizes { file, rows, kept } = self.used();
                println!(self.rt; "{what}: accepted; bytes {file}, rows {rows}, kept {kept}")
            }
            Err(e) if self.photo()? == before => println!(self.rt; "{what}: {e}; nothing altered"),
            Err(e) => println!(self.rt; "{what}: {e}; ALTERED"),
        }
    }

    // A call after a call.
    pub(crate) fn steps(&mut self, calls: &[(&str, Call<'_>)]) -> io::Result<()> {
        for (what, call) in calls {
            self.step(what, *call)?;
        }
        Ok(())
    }

    // A call with the file behind it.
    pub(crate) fn step_with_file(&mut self, what: &str, call: Call<'_>) -> io::Result<()> {
        self.step(what, call)?;
        self.tell_file()
    }

    pub(crate) fn steps_with_file(&mut self, calls: &[(&str, Call<'_>)]) -> io::Result<()> {
        for (what, call) in calls {
            self.step_with_file(what, *call)?;
        }
        Ok(())
    }

    // The used file bytes.
    pub(crate) fn tell_file(&self) -> io::Result<()> {
        let bytes = self.shown();
        if bytes.is_empty() {
            return println!(self.rt; "  no bytes");
        }
        println!(self.rt; "  file {}", Shown(bytes))
    }

    // The used rows.
    pub(crate) fn tell_rows(&mut self) -> io::Result<()> {
        let used = self.used();
        for row in self.rows.iter().take(used.rows) {
            println!(self.rt;
                "  row kind {} n {} before {} kept {}",
                row.kind, row.line, row.before, row.kept
            )?;
        }
        Ok(())
    }

    // The used kept bytes.
    pub(crate) fn tell_kept(&mut self) -> io::Result<()> {
        let used = self.used();
        println!(self.rt; "  kept {}", Shown(front(&mut self.kept, used.kept)))
    }
}
