// Strips of a few kinds.

pub(crate) const SHORT_STRIPS: [(&str, &[u8]); 14] = [
    ("nothing", b""),
    ("no U", b"P"),
    ("an unknown kind first", b"x"),
    ("U99900PV", b"U99900PV"),
    ("no currency", b"U99900P"),
    ("two amounts", b"U99900PVP"),
    ("the same digits", b"U99900PVU99900PV"),
    ("an unknown kind", b"U99900PVx"),
    ("the first body cut", b"U9990"),
    ("the last body cut", b"U99900PVT01"),
    ("no digit in the first body", b"U9990x"),
    ("an unlawful layout before a U", b"U99900PU99901PV"),
    ("an unlawful layout at the end", b"U99900PVU99901P"),
    (
        "a U without its body behind an unlawful layout",
        b"U99900PU9",
    ),
];

pub(crate) const BODIES: [(&str, &[u8]); 15] = [
    ("R0201", b"U99900PVR0201"),
    ("R0202", b"U99900PVR0202"),
    ("N00", b"U99900PVN00"),
    ("N20", b"U99900PVN20"),
    ("N19", b"U99900PVN19"),
    ("Z00", b"U99900PVZ00"),
    ("T000", b"U99900PVT000"),
    ("Q999", b"U99900PVQ999"),
    ("L0160", b"U99900PVL0160"),
    ("L0061", b"U99900PVL0061"),
    ("W00", b"U99900PVW00"),
    ("W61", b"U99900PVW61"),
    ("E with a control byte", b"U99900PVE\x1fNNN"),
    ("E with byte 160", b"U99900PVE\xa0NNN"),
    (
        "all kinds",
        b"U99900PVR0001N01Z01T001Q001B001DYEABCDL0001W01",
    ),
];
