//! What holds of images.
ghost use Rattle.vx_places.specs.ImageOf.{ImagesMeanThePrograms, ImagesReportAsCode};
ghost use Rattle.vx_places.specs.Reports.{WidenedRunsAlike};

use vx_format::images_are_loaded;

/// Where the objects, codes and tables of an image are those of a program, the image's reports mean the program: each agrees with the meaning, and an
/// ending that the meaning comes to is reached and stays.
pub fn images_mean_the_programs()
    ensures { ImagesMeanThePrograms }
{}

/// Such an image reports what the program's code by names does, instruction by instruction: machines that correspond step by step report alike.
pub fn images_report_as_code()
    ensures { ImagesReportAsCode }
{}

/// An image in the second version runs as it does in the first.
pub fn widened_images_run_alike()
    ensures { WidenedRunsAlike }
{
    images_are_loaded();
}
