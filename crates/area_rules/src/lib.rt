// AREA files, images: the opening checks as a table, when a file is accepted, its layout, where its samples, blocks and prefix regions are, and its band
// map. There is no code here: see specs/ and proofs/.
#![tactic(auto)]

use endian_rules::Order;

// What opening an AREA file finds: the byte order in which word 2 reads 4 and the file's length in bytes; and as raw words the lines (W9), the
// elements of a line (W10), the bytes of a sample (W11), the bands (W14), the bytes of a line prefix (W15), the band map (W19, and W20, which is 0
// unless there are more than 32 bands), the starts of DATA (W34) and NAV (W35), the bytes of documentation (W49), calibration (W50) and band list
// (W51) in a line prefix, those of the padding behind them, which fill the prefix up to a multiple of four, the starts of AUX (W60) and CAL (W63), the
// comment cards (W64), and whether W36 is 0, where lines have no validity code. A start of 0 means that there is no such block. "Layout" is document 01's
// term.
#[derive(Clone, Copy, Debug, PartialEq, Eq)]
pub struct AreaLayout {
    pub order: Order,
    pub length: usize,
    pub lines: u32,
    pub elements: u32,
    pub width: u32,
    pub bands: u32,
    pub prefix: u32,
    pub map: u32,
    pub map2: u32,
    pub data_start: u32,
    pub nav: u32,
    pub documentation: u32,
    pub calibration: u32,
    pub band_list: u32,
    pub padding: u32,
    pub aux: u32,
    pub cal: u32,
    pub cards: u32,
    pub no_validity_code: bool,
}

// The blocks of an AREA file: the directory, navigation, calibration, the supplemental block, the image lines, and the comment cards.
#[derive(Clone, Copy, Debug, PartialEq, Eq)]
pub enum Block {
    Dir,
    Nav,
    Cal,
    Aux,
    Data,
    Audit,
}

// The regions of a line prefix, in their order. The padding fills the prefix up to a multiple of four. "Region" is document 01's term for each of these stretches of
// a prefix, and "padding" document 02's.
#[derive(Clone, Copy, Debug, PartialEq, Eq)]
pub enum Region {
    Validity,
    Documentation,
    Calibration,
    BandList,
    Padding,
}

// Which sample of an element is meant: the one at a slot, counted from 0, or that of a band, counted from 1, which stands for its slot.
#[derive(Clone, Copy, Debug, PartialEq, Eq)]
pub enum SlotOrBand {
    Slot(u32),
    Band(u32),
}
