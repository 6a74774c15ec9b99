// The two tables as they were published, row by row. Decimals are whole numbers of the last place.

// The smallest sample that accepts no bad item, for a population with so many bad ones; confidence in parts of 10^9.
#[derive(Clone, Copy, PartialEq, Eq, Debug)]
pub struct SampleRow {
    pub bad: u32,
    pub sample: u32,
    pub confidence: u32,
}

pub const SAMPLE_ROWS: [SampleRow; 5] = [
    SampleRow {
        bad: 53,
        sample: 58,
        confidence: 952_264_779,
    },
    SampleRow {
        bad: 42,
        sample: 72,
        confidence: 950_075_640,
    },
    SampleRow {
        bad: 31,
        sample: 97,
        confidence: 950_316_610,
    },
    SampleRow {
        bad: 21,
        sample: 141,
        confidence: 950_699_546,
    },
    SampleRow {
        bad: 10,
        sample: 275,
        confidence: 950_137_480,
    },
];

// A sample's greatest accept number, and the probability that a lot of this quality passes; quality in parts per million,
// probability in parts of 10^4.
#[derive(Clone, Copy, PartialEq, Eq, Debug)]
pub struct AcceptRow {
    pub quality: u32,
    pub sample: u32,
    pub accept: u8,
    pub probability: u32,
}

pub const ACCEPT_ROWS: [AcceptRow; 27] = [
    AcceptRow {
        quality: 300,
        sample: 10_000,
        accept: 4,
        probability: 8_153,
    },
    AcceptRow {
        quality: 300,
        sample: 12_000,
        accept: 6,
        probability: 9_268,
    },
    AcceptRow {
        quality: 300,
        sample: 14_000,
        accept: 7,
        probability: 9_361,
    },
    AcceptRow {
        quality: 300,
        sample: 16_000,
        accept: 9,
        probability: 9_749,
    },
    AcceptRow {
        quality: 300,
        sample: 18_000,
        accept: 10,
        probability: 9_775,
    },
    AcceptRow {
        quality: 300,
        sample: 20_000,
        accept: 12,
        probability: 9_912,
    },
    AcceptRow {
        quality: 300,
        sample: 22_000,
        accept: 14,
        probability: 9_966,
    },
    AcceptRow {
        quality: 300,
        sample: 24_000,
        accept: 15,
        probability: 9_969,
    },
    AcceptRow {
        quality: 500,
        sample: 12_000,
        accept: 6,
        probability: 6_063,
    },
    AcceptRow {
        quality: 500,
        sample: 14_000,
        accept: 7,
        probability: 5_987,
    },
    AcceptRow {
        quality: 500,
        sample: 16_000,
        accept: 9,
        probability: 7_167,
    },
    AcceptRow {
        quality: 500,
        sample: 18_000,
        accept: 10,
        probability: 7_060,
    },
    AcceptRow {
        quality: 500,
        sample: 20_000,
        accept: 12,
        probability: 7_916,
    },
    AcceptRow {
        quality: 500,
        sample: 22_000,
        accept: 14,
        probability: 8_541,
    },
    AcceptRow {
        quality: 500,
        sample: 25_000,
        accept: 16,
        probability: 8_694,
    },
    AcceptRow {
        quality: 500,
        sample: 28_000,
        accept: 19,
        probability: 9_235,
    },
    AcceptRow {
        quality: 500,
        sample: 31_000,
        accept: 21,
        probability: 9_305,
    },
    AcceptRow {
        quality: 700,
        sample: 12_000,
        accept: 6,
        probability: 2_669,
    },
    AcceptRow {
        quality: 700,
        sample: 14_000,
        accept: 7,
        probability: 2_387,
    },
    AcceptRow {
        quality: 700,
        sample: 16_000,
        accept: 9,
        probability: 3_191,
    },
    AcceptRow {
        quality: 700,
        sample: 18_000,
        accept: 10,
        probability: 2_875,
    },
    AcceptRow {
        quality: 700,
        sample: 20_000,
        accept: 12,
        probability: 3_584,
    },
    AcceptRow {
        quality: 700,
        sample: 22_000,
        accept: 14,
        probability: 4_252,
    },
    AcceptRow {
        quality: 700,
        sample: 30_000,
        accept: 20,
        probability: 4_709,
    },
    AcceptRow {
        quality: 900,
        sample: 12_000,
        accept: 6,
        probability: 871,
    },
    AcceptRow {
        quality: 900,
        sample: 22_000,
        accept: 14,
        probability: 1_127,
    },
    AcceptRow {
        quality: 900,
        sample: 30_000,
        accept: 20,
        probability: 1_014,
    },
];
