// Record files that are merged.

// site: Elm. The end stands at place 13, and the record has 16 bytes.
pub const ELM: &[u8] = b"\x01\x00\x04site\x02\x00\x03Elm\x03\x00\x00";

// The same without the end.
pub const CUT: &[u8] = b"\x01\x00\x04site\x02\x00\x03Elm";

// site: Elm, cm: 42. The end stands at place 23, and the record has 26 bytes.
pub const BOTH: &[u8] = b"\x01\x00\x04site\x02\x00\x03Elm\x01\x00\x02cm\x02\x00\x0242\x03\x00\x00";

// The same, and then a record of 28 bytes, cm: 7, site: O'Hara.
pub const TWO: &[u8] =
    b"\x01\x00\x04site\x02\x00\x03Elm\x01\x00\x02cm\x02\x00\x0242\x03\x00\x00\x01\x00\x02cm\x02\x00\x017\x01\x00\x04site\x02\x00\x06O'Hara\x03\x00\x00";

// BOTH and then ELM, whose end stands at place 39.
pub const THEN_ELM: &[u8] =
    b"\x01\x00\x04site\x02\x00\x03Elm\x01\x00\x02cm\x02\x00\x0242\x03\x00\x00\x01\x00\x04site\x02\x00\x03Elm\x03\x00\x00";

// site: a,b, cm: 42. The end stands at place 23, and the record has 26 bytes.
pub const COMMA: &[u8] = b"\x01\x00\x04site\x02\x00\x03a,b\x01\x00\x02cm\x02\x00\x0242\x03\x00\x00";

// No pairs.
pub const NO_PAIRS: &[u8] = b"\x03\x00\x00";
