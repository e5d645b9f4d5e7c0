// The difference of two files in a currency.
ghost use Rattle.std.specs.Prelude.{◌≡◌};
ghost use Rattle.files.specs.Differences.{difference_of};

use crate::total::{currency_of, sum_lines};
use basics::refusal::Refusal;
use layouts::set::LayoutSet;

// Which of the two files a fault is in: the first is 1, the second 2, and a fault of neither is 0.
#[derive(Clone, Copy, Debug, PartialEq, Eq)]
pub enum WhichFile {
    Neither = 0,
    First = 1,
    Second = 2,
}

// A fault, and the file that it is in.
#[derive(Clone, Copy, Debug, PartialEq, Eq)]
pub struct FileFault {
    pub refusal: Refusal,
    pub file: WhichFile,
}

// The first file's total less the second's, which may be below 0. The first file's fault comes
// before the second's, and a currency that is none before both.
pub fn difference<S: LayoutSet>(
    set: &S,
    first: &[u8],
    second: &[u8],
    currency: &[u8],
) -> Result<i64, FileFault>
    ensures { result ≡ difference_of (S.meaning set.now) first.now second.now currency.now }
{
    let currency = currency_of(currency).map_err(|refusal| FileFault {
        refusal,
        file: WhichFile::Neither,
    })?;
    let more = sum_lines(set, first, currency).map_err(|refusal| FileFault {
        refusal,
        file: WhichFile::First,
    })?;
    let less = sum_lines(set, second, currency).map_err(|refusal| FileFault {
        refusal,
        file: WhichFile::Second,
    })?;
    Ok(more as i64 - less as i64)
}
