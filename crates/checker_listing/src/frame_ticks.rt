// The ticks of a list of frames, three words to a frame, of which the first is its tick: whether they ascend, and the
// frame of a tick among frames in order.
ghost use Rattle.std.specs.Prelude.{◌≡◌, ◌%◌, length};
ghost use Rattle.checker_listing.specs.FrameList.{Tells, Ascends, Before};

// Whether each frame has a greater tick than the frame before it.
pub(crate) fn ticks_ascend(frames: &[u32]) -> bool
    requires { length frames.now % 3 ≡ 0 }
    ensures { Tells result (Ascends frames.now) }
{
    let count = frames.len() / 3;
    for k in 1..count {
        if frames[3 * k] <= frames[3 * k - 3] {
            return false;
        }
    }
    true
}

// How many frames have a smaller tick, found by halving what is left: so the frame of the tick, if there is one, is the
// next.
pub(crate) fn find_frame(frames: &[u32], tick: u32) -> usize
    requires fact_1 { length frames.now % 3 ≡ 0 }
    requires fact_2 { Ascends frames.now }
    ensures { Before frames.now tick result }
{
    // Halved by hand: std's `partition_point` searches the elements of a slice, and a frame is three words of one.
    let mut low: usize = 0;
    let mut high = frames.len() / 3;
    while low < high {
        let middle = low + (high - low) / 2;
        if frames[3 * middle] < tick {
            low = middle + 1;
        } else {
            high = middle;
        }
    }
    low
}
