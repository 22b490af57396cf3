// What a look at a frame's words tells.
ghost use Rattle.std.specs.Prelude.{◌≡◌, ◌+◌, ◌*◌, ◌≤◌, length};
ghost use Rattle.page.specs.Figures.{page_size};
ghost use Rattle.machine.specs.Sweep.{childless as no_swizzled_word};

use page::{FrameIndex, PageNumber, word};

// Is no word of the frame swizzled. Bit 31 of a word is that of what it names, so that marks are not looked for. The loop looks at all words, so that the compiler takes them side by side.
pub fn childless(frames: &[u8], frame: FrameIndex) -> bool
    requires { page_size * frame.0 + page_size ≤ length frames.now }
    ensures { result ≡ no_swizzled_word frames.now frame.0 }
{
    let start = frame.start();
    let mut none = true;
    for k in 0..PageNumber::SLOTS {
        let w = word::word_at(frames, start + word::SIZE * k);
        if !word::is_number(w) {
            none = false;
        }
    }
    none
}
