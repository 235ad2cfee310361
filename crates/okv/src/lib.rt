// The C entry points: thin, each over one function of the layers below.
#![tactic(auto)]

ghost use Rattle.std.specs.Prelude.{◌≡◌, length as size_of};
ghost use Rattle.parts.specs.Answer.{status_of, image_of, outcome_of};
ghost use Rattle.parts.specs.Over.{over};
ghost use Rattle.entries.specs.Bytes.{apply_bytes, default_bytes, test_bytes, validate_bytes};

// Writes the default image: 0 and its length, or 45 and length 0 where it does not fit.
#[unsafe(no_mangle)]
pub extern "C" fn okv_default(image: &mut [u8], length: &mut usize) -> u32
    ensures status { result ≡ status_of (default_bytes (size_of image.old)) }
    ensures size { length.new ≡ size_of (image_of (default_bytes (size_of image.old))) }
    ensures bytes { image.new ≡ over image.old 0 (image_of (default_bytes (size_of image.old))) }
{
    match image::default_image(image) {
        Ok(n) => {
            *length = n;
            0
        }
        Err(e) => {
            *length = 0;
            e.number()
        }
    }
}

// Whether the bytes are an image: 0 or 40.
#[unsafe(no_mangle)]
pub extern "C" fn okv_test(image: &[u8]) -> u32
    ensures { result ≡ test_bytes image.now }
{
    match image::test_image(image) {
        Ok(()) => 0,
        Err(e) => e.number(),
    }
}

// Whether a lease token is the active one: 0, 1 to 4, or 40 to 43.
#[unsafe(no_mangle)]
pub extern "C" fn okv_validate(image: &[u8], token: &[u8]) -> u32
    ensures { result ≡ validate_bytes image.now token.now }
{
    match validation::validate_active_snapshot_lease(image, token) {
        Ok(()) => 0,
        Err(e) => e.number(),
    }
}

// Applies a request: 0 and the two lengths, or a refusal's number, lengths 0 and no byte changed.
#[unsafe(no_mangle)]
pub extern "C" fn okv_apply(
    image: &[u8],
    request: &[u8],
    next: &mut [u8],
    outcome: &mut [u8],
    image_length: &mut usize,
    outcome_length: &mut usize,
) -> u32
    ensures status { result ≡ status_of (apply_bytes image.now request.now (size_of next.old) (size_of outcome.old)) }
    ensures size { image_length.new ≡ size_of (image_of (apply_bytes image.now request.now (size_of next.old) (size_of outcome.old))) }
    ensures told { outcome_length.new ≡ size_of (outcome_of (apply_bytes image.now request.now (size_of next.old) (size_of outcome.old))) }
    ensures bytes { next.new ≡ over next.old 0 (image_of (apply_bytes image.now request.now (size_of next.old) (size_of outcome.old))) }
    ensures outcome { outcome.new ≡ over outcome.old 0 (outcome_of (apply_bytes image.now request.now (size_of next.old) (size_of outcome.old))) }
{
    match transition::apply(image, request, next, outcome) {
        Ok(lengths) => {
            *image_length = lengths.image;
            *outcome_length = lengths.outcome;
            0
        }
        Err(e) => {
            *image_length = 0;
            *outcome_length = 0;
            e.number()
        }
    }
}
