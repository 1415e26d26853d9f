//! The input of the tests of XXH3, and the values that the tests of the Rust crate `twox-hash` expect.

/// The values of the first `len` bytes under the seed 0.
#[derive(Clone, Copy)]
pub(crate) struct Row {
    pub(crate) len: usize,
    pub(crate) value: u64,
    pub(crate) wide_value: u128,
}

const ROWS: [Row; 21] = [
    Row {
        len: 0,
        value: 0x2d06_8005_38d3_94c2,
        wide_value: 0x99aa_06d3_0147_98d8_6001_c324_468d_497f,
    },
    Row {
        len: 1,
        value: 0xc44b_dff4_074e_ecdb,
        wide_value: 0xa6cd_5e93_9200_0f6a_c44b_dff4_074e_ecdb,
    },
    Row {
        len: 2,
        value: 0xd664_5fc3_051a_9457,
        wide_value: 0x6a4a_5274_c1b0_d3ad_d664_5fc3_051a_9457,
    },
    Row {
        len: 3,
        value: 0x5f42_99fc_161c_9cbb,
        wide_value: 0xe3b5_5f57_945a_17cf_5f42_99fc_161c_9cbb,
    },
    Row {
        len: 4,
        value: 0x60da_b036_a582_11f2,
        wide_value: 0xeb70_bf5f_c779_e9e6_a611_1d53_e80a_3db5,
    },
    Row {
        len: 5,
        value: 0xb075_753a_84ca_0fbe,
        wide_value: 0x9434_5321_06a7_c141_c920_d234_7a85_929b,
    },
    Row {
        len: 8,
        value: 0x3a1c_2d7c_85af_88f8,
        wide_value: 0xe1e4_432a_6221_7fe4_cfd5_0c61_c8bb_98c1,
    },
    Row {
        len: 9,
        value: 0xe961_2598_145b_b9dc,
        wide_value: 0x16c7_69d8_3e4a_ebce_9079_3197_9dca_3746,
    },
    Row {
        len: 12,
        value: 0x5ace_6a51_1c10_894b,
        wide_value: 0x38f9_2247_a7f7_3cc5_7780_eb31_198f_13ca,
    },
    Row {
        len: 16,
        value: 0x8355_e3a6_f617_70db,
        wide_value: 0x7295_0631_8276_07e2_8428_12cc_870d_cae2,
    },
    Row {
        len: 17,
        value: 0x9ef3_41a9_9de3_7328,
        wide_value: 0x685b_c458_b37d_057f_c06e_233d_f772_9217,
    },
    Row {
        len: 32,
        value: 0x3523_581f_e96e_4c05,
        wide_value: 0x25e7_c9b3_424c_eed2_457d_9566_b6fc_d697,
    },
    Row {
        len: 33,
        value: 0xe68c_56ba_8899_1e58,
        wide_value: 0x0217_5c3a_abb0_0637_e08d_8495_1339_de86,
    },
    Row {
        len: 128,
        value: 0x85c6_174c_7ff4_c46b,
        wide_value: 0x1479_2fc3_af88_dc6c_0532_1a0b_64d6_7b41,
    },
    Row {
        len: 129,
        value: 0xec76_42b4_31ba_3e5a,
        wide_value: 0xdd5e_74ac_6b45_f54e_bc30_b633_82b0_9a3b,
    },
    Row {
        len: 239,
        value: 0x972b_14e3_c46f_214b,
        wide_value: 0x9843_ab31_a06b_e0df_fe21_3746_28fc_c539,
    },
    Row {
        len: 240,
        value: 0x375a_384d_957f_e865,
        wide_value: 0x65b5_be86_da55_40e7_c92b_68e1_6f83_bbb6,
    },
    Row {
        len: 241,
        value: 0x02e8_cd95_421c_6d02,
        wide_value: 0x1da1_cb61_bcb8_a2a1_02e8_cd95_421c_6d02,
    },
    Row {
        len: 244,
        value: 0xbc17_c91e_c3cf_8d7f,
        wide_value: 0x3ff4_93d7_a813_7ab6_bc17_c91e_c3cf_8d7f,
    },
    Row {
        len: 1024,
        value: 0xe5d7_8baf_a45b_2aa5,
        wide_value: 0xd0ac_1f7b_93bf_57b9_e5d7_8baf_a45b_2aa5,
    },
    Row {
        len: 10240,
        value: 0xbcd6_3266_df6e_2244,
        wide_value: 0x4f63_75cc_a7ec_e1e1_bcd6_3266_df6e_2244,
    },
];

pub(crate) const SEED: u64 = 0xdead_cafe;

/// The 64-bit values of this many bytes under that seed.
const SEEDED_ROWS: [(usize, u64); 8] = [
    (0, 0x4aed_e683_89c0_e311),
    (1, 0x78fc_079a_75aa_f3c0),
    (4, 0x1b73_06b8_9f25_4507),
    (9, 0x7df7_627f_d1f9_39b6),
    (17, 0x49ca_0fff_0950_1622),
    (129, 0x2bfd_caec_30ff_3000),
    (241, 0xf984_56bc_25be_0901),
    (1024, 0x2483_9f0f_cdf4_d078),
];

// The tables, as opaque values: a check would read each case again in each caller.
pub(crate) fn rows() -> [Row; 21] {
    ROWS
}

pub(crate) fn seeded_rows() -> [(usize, u64); 8] {
    SEEDED_ROWS
}

// The bytes `i mod 251`.
fn fill(bytes: &mut [u8]) {
    for i in 0..bytes.len() {
        bytes[i] = (i % 251) as u8;
    }
}

pub(crate) fn generated<const N: usize>() -> [u8; N] {
    let mut bytes = [0; N];
    fill(&mut bytes);
    bytes
}

pub(crate) fn gen_10240() -> [u8; 10240] {
    generated()
}

// Returns the first `n` of them, or all.
pub(crate) fn first(bytes: &[u8; 10240], n: usize) -> &[u8] {
    &bytes[..n.min(10240)]
}

// Returns the bytes from one place to before another if these are in order and in range, and none otherwise.
pub(crate) fn between(bytes: &[u8; 10240], start: usize, end: usize) -> &[u8] {
    bytes.get(start..end).unwrap_or(&[])
}
