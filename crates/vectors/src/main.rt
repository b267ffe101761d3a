// Computes the published vectors of FIPS 197 and RFC 4493, and compares.
#![tactic(auto)]

use aes128::Aes128;
use std::io;

// The key of the cipher example of FIPS 197, appendix B, and of RFC 4493, section 4.
const KEY: [u8; 16] = [
    0x2b, 0x7e, 0x15, 0x16, 0x28, 0xae, 0xd2, 0xa6, 0xab, 0xf7, 0x15, 0x88, 0x09, 0xcf, 0x4f, 0x3c,
];

const MESSAGE: [u8; 64] = [
    0x6b, 0xc1, 0xbe, 0xe2, 0x2e, 0x40, 0x9f, 0x96, 0xe9, 0x3d, 0x7e, 0x11, 0x73, 0x93, 0x17, 0x2a,
    0xae, 0x2d, 0x8a, 0x57, 0x1e, 0x03, 0xac, 0x9c, 0x9e, 0xb7, 0x6f, 0xac, 0x45, 0xaf, 0x8e, 0x51,
    0x30, 0xc8, 0x1c, 0x46, 0xa3, 0x5c, 0xe4, 0x11, 0xe5, 0xfb, 0xc1, 0x19, 0x1a, 0x0a, 0x52, 0xef,
    0xf6, 0x9f, 0x24, 0x45, 0xdf, 0x4f, 0x9b, 0x17, 0xad, 0x2b, 0x41, 0x7b, 0xe6, 0x6c, 0x37, 0x10,
];

// A computed value, and what the standard publishes for it.
#[derive(Drop)]
struct Case {
    name: &'static str,
    computed: [u8; 16],
    published: u128,
}

fn main(rt: HostRuntime) -> io::Result<()> {
    let cipher = Aes128::new(&KEY);
    let appendix_c = Aes128::new(&[0, 1, 2, 3, 4, 5, 6, 7, 8, 9, 10, 11, 12, 13, 14, 15]);
    let (k1, k2) = cmac::subkeys(&cipher);
    let cases = [
        Case {
            name: "FIPS 197, appendix B, cipher example",
            computed: cipher.encrypt(&[
                0x32, 0x43, 0xf6, 0xa8, 0x88, 0x5a, 0x30, 0x8d, 0x31, 0x31, 0x98, 0xa2, 0xe0, 0x37,
                0x07, 0x34,
            ]),
            published: 0x3925841d_02dc09fb_dc118597_196a0b32,
        },
        Case {
            name: "FIPS 197, appendix C.1, AES-128",
            computed: appendix_c.encrypt(&[
                0x00, 0x11, 0x22, 0x33, 0x44, 0x55, 0x66, 0x77, 0x88, 0x99, 0xaa, 0xbb, 0xcc, 0xdd,
                0xee, 0xff,
            ]),
            published: 0x69c4e0d8_6a7b0430_d8cdb780_70b4c55a,
        },
        Case {
            name: "RFC 4493, AES-128 of zeros",
            computed: cipher.encrypt(&[0; 16]),
            published: 0x7df76b0c_1ab899b3_3e42f047_b91b546f,
        },
        Case {
            name: "RFC 4493, subkey K1",
            computed: k1,
            published: 0xfbeed618_35713366_7c85e08f_7236a8de,
        },
        Case {
            name: "RFC 4493, subkey K2",
            computed: k2,
            published: 0xf7ddac30_6ae266cc_f90bc11e_e46d513b,
        },
        Case {
            name: "RFC 4493, example 1, no bytes",
            computed: cmac::tag(&cipher, &[]),
            published: 0xbb1d6929_e9593728_7fa37d12_9b756746,
        },
        Case {
            name: "RFC 4493, example 2, 16 bytes",
            computed: cmac::tag(&cipher, &MESSAGE[..16]),
            published: 0x070a16b4_6b4d4144_f79bdd9d_d04a287c,
        },
        Case {
            name: "RFC 4493, example 3, 40 bytes",
            computed: cmac::tag(&cipher, &MESSAGE[..40]),
            published: 0xdfa66747_de9ae630_30ca3261_1497c827,
        },
        Case {
            name: "RFC 4493, example 4, 64 bytes",
            computed: cmac::cmac(&KEY, &MESSAGE),
            published: 0x51f0bebf_7e3b9d92_fc497417_79363cfe,
        },
    ];
    for Case {
        name,
        computed,
        published,
    } in &cases {
        let text = hex_text::encode(rt.alloc(), computed)?;
        let verdict = if u128::from_be_bytes(*computed) == *published {
            "as published"
        } else {
            "NOT AS PUBLISHED"
        };
        println!(rt; "{name}: {text} {verdict}")?;
    }
    Ok(())
}
