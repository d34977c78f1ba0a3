//! The texts of the smallest trials, against those of another program.
use grid_maker::make;
use std::alloc::AllocError;

// How many bytes a text has, and its 64-bit FNV-1a checksum.
fn measure(text: &[u8]) -> (usize, u64) {
    let mut sum = 0xcbf2_9ce4_8422_2325u64;
    for byte in text {
        sum = (sum ^ u64::from(*byte)).wrapping_mul(0x0100_0000_01b3);
    }
    (text.len(), sum)
}

// Two feeders have a tie.
#[test]
fn makes_texts(rt: HostRuntime) -> Result<(), AllocError> {
    for (feeders, of_network, of_events) in [
        (
            1,
            (78_848, 0x3236_d11b_4f7a_ed15),
            (353_298, 0x3102_a878_b972_2f98),
        ),
        (
            2,
            (157_729, 0x41cb_1296_23d8_b840),
            (706_282, 0x7f98_1ba4_aa4e_e014),
        ),
    ] {
        assert!(rt; 1 <= feeders && feeders <= 100);
        let (network, events) = make(rt.alloc(), feeders)?;
        assert_eq!(rt; measure(&network), of_network);
        assert_eq!(rt; measure(&events), of_events);
    }
    Ok(())
}
