// What the fields of a payment (UBT04500) are for, in the order of the layout.
const PAYMENT: [&str; 22] = [
    "the record",
    "type of advice",
    "the remitter's account",
    "the amount",
    "the currency",
    "currency equivalent",
    "transfer date",
    "own reference",
    "the beneficiary's account",
    "express advice",
    "text code",
    "text line",
    "the beneficiary's identification of the remitter",
    "reference to the primary document",
    "batch entry",
    "the beneficiary's name",
    "message to the beneficiary",
    "alternative remitter",
    "unused",
    "competition neutral disposition day",
    "unused",
    "the debtor's identification of the payment",
];

// What the field at index k of layout j is for; only the payment's fields have names here.
pub(crate) fn name_of(j: usize, k: usize) -> &'static str {
    if j != 1 {
        return "field";
    }
    PAYMENT.get(k).copied().unwrap_or("field")
}
