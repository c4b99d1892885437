//! Loaded images.
ghost use Rattle.std.specs.Prelude.{◌≡◌, ◌<◌, ℕ, true, List, ◌∷◌, ◌++◌, length, Some, Ok, Err, IfOk};
ghost use Rattle.vx_format.specs.declared.fault.FormatFault.TheVariants.{Short, Trailing};
ghost use Rattle.vx_format.specs.declared.image.Version.{Version};
ghost use Rattle.vx_format.specs.declared.image.Test.{Test};
ghost use Rattle.vx_format.specs.declared.image.Block.{Block};
ghost use Rattle.vx_format.specs.declared.image.Image.{Image};
ghost use Rattle.vx_format.specs.Layout.{Laid, image_bytes, is_image};
ghost use Rattle.vx_format.specs.Format.{loaded};
ghost use Rattle.vx_image.specs.Gives.{LoadsAs};
ghost use Rattle.vx_image.specs.Parts.{IsThere, block_at, image_of, instruction_bytes, step_bytes, test_at};

use crate::fault::LoadFault;
use crate::image::read_image;
use crate::kept::{codes_of, forms_of};
use sqlite_items::Items;
use std::alloc::Global;
use std::marker::Model;
use vx_format::{Image, Version, images_are_loaded};

/// An image that was loaded, which contracts see as its bytes.
#[derive(Drop)]
pub struct Loaded {
    bytes: Vec<u8>,
    version: Version,
    image: Image,
    // the steps of each test, and the instructions of each block of each code, in bytes
    forms: Items<Items<u8>>,
    codes: Items<Items<Items<u8>>>,
}

impl Model for Loaded {
    ghost use Rattle.std.specs.Prelude.{◌≡◌, ℕ, List, map, Ok, true};
    ghost use Rattle.vx_format.specs.Layout.{is_image};
    ghost use Rattle.vx_format.specs.Format.{loaded};
    ghost use Rattle.vx_image.specs.Parts.{image_of, instruction_bytes, step_bytes};

    ghost Value = { List ℕ };

    ghost view = { λ l. l.bytes.items };

    ghost invariant = { λ l. (loaded l.bytes.items ≡ Ok (l.version, l.image)) × (is_image l.version l.image ≡ true) × (image_of l.bytes.items ≡ l.image)
        × (l.forms ≡ map step_bytes l.image.tests) × (l.codes ≡ map (map instruction_bytes) l.image.codes) };
}

/// Loads an image of either version from its bytes, or tells the first fault in them from left to right.
pub fn load(alloc: Global, bytes: &[u8]) -> Result<Loaded, LoadFault>
    // What is loaded is what the bytes mean, and a fault is theirs.
    ensures exact { LoadsAs bytes.now result (loaded bytes.now) }
    // Only what is laid as an image is loaded.
    ensures laid { IfOk result (λ l. Laid bytes.now) }
    // Each image is loaded from its bytes, unless memory runs out.
    ensures all { (v : Version) (x : Image) → is_image v x ≡ true → bytes.now ≡ image_bytes v x → LoadsAs bytes.now result (Ok (v, x)) }
    // Of a proper front of an image the fault is how many bytes there are.
    ensures short { (v : Version) (x : Image) (more : List ℕ) → is_image v x ≡ true → image_bytes v x ≡ bytes.now ++ more → 0 < length more
        → LoadsAs bytes.now result (Err (Short (length bytes.now))) }
    // Of an image with more bytes behind it the fault is where these begin.
    ensures trailing { (v : Version) (x : Image) (b : ℕ) (rest : List ℕ) → is_image v x ≡ true → bytes.now ≡ image_bytes v x ++ b ∷ rest
        → LoadsAs bytes.now result (Err (Trailing (length (image_bytes v x)))) }
{
    images_are_loaded();
    let (version, image) = read_image(alloc, bytes)?;
    let bytes = Vec::from_slice(alloc, bytes)?;
    let forms = forms_of(alloc, &image.tests)?;
    let codes = codes_of(alloc, &image.codes)?;
    Ok(Loaded {
        bytes,
        version,
        image,
        forms,
        codes,
    })
}

impl Loaded {
    /// The bytes from which the image was loaded.
    pub fn bytes(&self) -> &[u8]
        ensures { result.now ≡ self.now }
    {
        self.bytes.as_slice()
    }

    /// The version of the format in which the bytes are written.
    pub fn version(&self) -> Version
        ensures { loaded self.now ≡ Ok (result, image_of self.now) }
    {
        self.version
    }

    /// The whole image, decoded.
    pub fn image(&self) -> &Image
        ensures image { result.now ≡ image_of self.now }
        ensures fits { (v : Version) × (is_image v result.now ≡ true) }
    {
        &self.image
    }

    /// The steps of a test in postfix form, in bytes, without the number of the bytes. The test is named by its place, which must be in range.
    pub fn test_steps(&self, test: u32) -> &[u8]
        requires { IsThere (test_at (image_of self.now) test) }
        ensures { (t : Test) → test_at (image_of self.now) test ≡ Some t → result.now ≡ step_bytes t }
    {
        match self.forms.get(test as usize) {
            Some(form) => form.as_slice(),
            None => unreachable!(),
        }
    }

    /// The instructions of a block, in bytes, without the number of the bytes. The code and the block are named by their places, which must be in range.
    pub fn instructions(&self, code: u32, block: u32) -> &[u8]
        requires { IsThere (block_at (image_of self.now) code block) }
        ensures { (b : Block) → block_at (image_of self.now) code block ≡ Some b → result.now ≡ instruction_bytes b }
    {
        match self.codes.get(code as usize) {
            Some(blocks) => match blocks.get(block as usize) {
                Some(bytes) => bytes.as_slice(),
                None => unreachable!(),
            },
            None => unreachable!(),
        }
    }
}
