//! What holds of the format.
ghost use Rattle.vx_format.specs.Laws.{AllFitTwo, BytesAreOfOne, FrontsAreShort, LaidIsLoaded, LoadedIsLaid, MoreIsTrailing};

/// What is loaded is an image that fits its version and has exactly these bytes, and each image that fits is loaded from its bytes. A proper front of an
/// image is too short, at its own length; where more bytes follow, they trail at the image's length. Two images with the same bytes are the same, in the
/// same version. Each image that fits version 1 fits version 2.
pub fn images_are_loaded()
    ensures laid { LoadedIsLaid }
    ensures loaded { LaidIsLoaded }
    ensures fronts { FrontsAreShort }
    ensures more { MoreIsTrailing }
    ensures one { BytesAreOfOne }
    ensures wider { AllFitTwo }
{}
