// The library's face: what a program needs of it, under one name. C programs link `edi4_c`.
#![tactic(auto)]

mod examples;

// Amounts, days, currencies, refusals, and how they are printed.
pub use basics::calendar::Day;
pub use basics::money::{Amount, Currency, Hundredths};
pub use basics::refusal::{Layer, Reason, Refusal};
pub use basics::text::Shown;

// Layout sets: the built-in one, those that are loaded, and the interface of both.
pub use layouts::built_in::BuiltIn;
pub use layouts::field::Field;
pub use layouts::fields::fields_of;
pub use layouts::set::LayoutSet;
pub use strips::load::LoadError;
pub use strips::loaded_set::LoadedSet;
pub use strips::write::write as write_strips;

// Lines and their values.
pub use comparing::records::same_record;
pub use comparing::rows::same_values;
pub use lines::judge::judge;
pub use reading::money::{Money, read_money};
pub use reading::read::{Reading, read};
pub use values::form::Form;
pub use values::row::{ValueRow, Values};
pub use values::text::text_of;
pub use writing::write::write;

// Whole files and their reports.
pub use files::cut::{LineCount, Lines, count_lines, lines_of};
pub use files::difference::{FileFault, WhichFile, difference};
pub use files::judge_file::judge_file;
pub use files::total::total;
pub use reports::fault_row::{FaultRow, Survey};
pub use reports::report::report;
pub use reports::survey::survey;

// Drafts, sealed files, and lists of calls.
pub use changes::change_row::{ChangeKind, ChangeRow, UnknownChange};
pub use drafts::draft::Draft;
pub use drafts::sealed::{Sealed, Unsealed};
pub use runs::call::{Call, play};
pub use runs::replay::{Replayed, replay};
pub use runs::rewind::{Rewound, rewind};

// The worked examples as a theorem.
pub use crate::examples::worked_examples_hold;
