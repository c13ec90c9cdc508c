// A bench before its start.
ghost use Rattle.std.specs.Prelude.{◌≡◌, length};

use bus::Words;
use racks::Rack;

mod starting;

// A rack of savers, the end time, and the words that the boards start with.
pub struct Setup<R: Rack> {
    rack: R,
    end: u32,
    starts: [Words; 8],
    ghost eight: { length starts ≡ 8 },
}
