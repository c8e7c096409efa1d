//! Numbers by chance, the same for the same seed and place.

/// A number below the bound.
pub(crate) fn drawn(seed: u64, place: u64, bound: u64) -> u64 {
    let mut state = seed.wrapping_mul(0x9e37_79b9_7f4a_7c15)
        ^ place.wrapping_mul(0xd1b5_4a32_d192_ed03);
    for _ in 0..2u32 {
        state = state
            .wrapping_mul(6_364_136_223_846_793_005)
            .wrapping_add(1_442_695_040_888_963_407);
    }
    (state >> 33) % bound.max(1)
}
