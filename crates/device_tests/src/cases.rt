// Cases of a device: its image before, calls with their answers, and its image afterwards.
ghost use Rattle.std.specs.Mem.{FitsInMemory};

use crate::calls::{Answer, Step};
use std::process::Abort;
use std::slice;

// A frame that can be laid into an image, if there is room for it.
pub(super) trait Lay: Copy {
    fn lay(self, image: &mut [u8]);
}

// A device: its fuses, its frames before, calls with their answers, and its frames afterwards. A frame that is not named is
// zero, and one that is not named afterwards stays as it was.
#[derive(Clone, Copy)]
pub(super) struct Case<'a, F, C> {
    pub fuses: &'a [u32],
    pub before: &'a [F],
    pub steps: &'a [Step<C>],
    pub after: &'a [F],
}

// What one call does to one place: the frame at power-on, a call that is served, the call and its answer, the frame afterwards.
pub(super) struct Row<F, C>(pub F, pub C, pub C, pub Answer, pub F);

// Lays frames into an image.
fn lay_all<F: Lay>(image: &mut [u8], frames: &[F]) {
    for frame in frames {
        frame.lay(image);
    }
}

impl<F: Lay, C: Copy> Case<'_, F, C> {
    // Tries the case of a row over an image that is zero: takes its steps, and checks every byte of the image afterwards.
    pub(super) fn try_over<const N: usize, T: FnOnce(&mut [u8])>(
        &self,
        rt: &impl Abort,
        row: usize,
        zero: [u8; N],
        take_steps: T,
    )
        requires { T.IsAlwaysCallable take_steps }
    {
        let mut image = zero;
        lay_all(&mut image, self.before);
        take_steps(&mut image);
        let mut expected = zero;
        lay_all(&mut expected, self.before);
        lay_all(&mut expected, self.after);
        assert!(rt; image == expected, "row {row}, the image afterwards");
    }
}

impl<F, C: Copy> Row<F, C> {
    // The steps of the row: power on, the call that is served, and then the call that is tried.
    pub(super) fn steps(&self, power_on: C) -> [Step<C>; 3] {
        let Row(_, setup, call, answer, _) = self;
        [
            Step(power_on, Answer::Done),
            Step(*setup, Answer::Done),
            Step(*call, *answer),
        ]
    }

    // The row as a case of these steps. A frame is lent as a slice of one, so it has to fit in memory.
    pub(super) fn case<'a>(&'a self, steps: &'a [Step<C>]) -> Case<'a, F, C>
        requires { FitsInMemory F.row }
    {
        let Row(before, _, _, _, after) = self;
        Case {
            fuses: &[],
            before: slice::from_ref(before),
            steps,
            after: slice::from_ref(after),
        }
    }
}
