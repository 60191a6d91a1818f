// The C interface as an archive: each function exports kinphlor's own of its name, under the same clauses.
#![tactic(auto)]

ghost use Rattle.std.specs.Prelude.{◌≡◌};
ghost use Rattle.kinphlor.specs.Interface.{seal_from_c, open_from_c, PerformsFromC};
ghost use Rattle.kinphlor.specs.Interface.{PerformsRingFromC, planned_from_c, GivesWorstFromC};

// Seals: header is the associated data and then the nonce.
#[unsafe(no_mangle)]
pub extern "C" fn kinphlor_seal(
    key: &[u8],
    header: &[u8],
    ad_len: u32,
    nonce_len: u32,
    input: &[u8],
    output: &mut [u8],
    scratch: &mut [u8],
) -> u64
    ensures { PerformsFromC seal_from_c key header ad_len nonce_len input output scratch result }
{
    kinphlor::kinphlor_seal(key, header, ad_len, nonce_len, input, output, scratch)
}

// Opens what kinphlor_seal sealed.
#[unsafe(no_mangle)]
pub extern "C" fn kinphlor_open(
    key: &[u8],
    header: &[u8],
    ad_len: u32,
    nonce_len: u32,
    input: &[u8],
    output: &mut [u8],
    scratch: &mut [u8],
) -> u64
    ensures { PerformsFromC open_from_c key header ad_len nonce_len input output scratch result }
{
    kinphlor::kinphlor_open(key, header, ad_len, nonce_len, input, output, scratch)
}

// Opens what kinphlor_seal sealed, under the first key of a ring that opens it.
#[unsafe(no_mangle)]
pub extern "C" fn kinphlor_open_ring(
    key_len: usize,
    ring: &[u8],
    header: &[u8],
    ad_len: u32,
    nonce_len: u32,
    input: &[u8],
    output: &mut [u8],
    scratch: &mut [u8],
) -> u64
    ensures { PerformsRingFromC key_len ring header ad_len nonce_len input output scratch result }
{
    kinphlor::kinphlor_open_ring(
        key_len, ring, header, ad_len, nonce_len, input, output, scratch,
    )
}

// For planning, from lengths alone: how many blocks go through the cipher to seal n bytes, or to open what that gives,
// with associated data and nonce of these lengths. 0 for an empty nonce and for n over the limit.
#[unsafe(no_mangle)]
pub extern "C" fn kinphlor_planned_work(ad_len: u32, nonce_len: u32, n: usize) -> u64
    ensures { result ≡ planned_from_c ad_len nonce_len n }
{
    kinphlor::kinphlor_planned_work(ad_len, nonce_len, n)
}

// The worst header list, to the lent places: of all lists of count lengths that sum to header_len,
// none under the least, one whose strings have the most blocks.
// The number is the answer's times 2 to the power 32, plus these blocks; after 12 places and blocks are zero.
#[unsafe(no_mangle)]
pub extern "C" fn kinphlor_worst_header(
    header_len: usize,
    count: usize,
    least: usize,
    lens: &mut [u32; 126],
) -> u64
    ensures { GivesWorstFromC header_len count least lens.new result }
{
    kinphlor::kinphlor_worst_header(header_len, count, least, lens)
}
