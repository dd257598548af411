// The layers of a block that a summary does not pass over, one after another.
ghost use Rattle.std.specs.Prelude.{◌≡◌, ◌-◌, ◌≤◌};
ghost use Rattle.std.specs.Iterator.{at_most};
ghost use Rattle.model.specs.Limits.{most_subdivisions};
ghost use Rattle.layers.specs.LayersLeft.{LayerGiven};

use crate::judging::next_layer;

#[derive(Drop)]
pub struct LayersLeft<'a> {
    pub n: usize,
    pub threshold: f32,
    pub summary: &'a [f32],
    pub from: usize,
    ghost few: { n ≤ most_subdivisions },
    ghost within: { from ≤ n },
}

pub fn layers_left(n: usize, threshold: f32, summary: &[f32]) -> LayersLeft<'_>
    requires { n ≤ most_subdivisions }
    ensures n { result.n ≡ n }
    ensures threshold { result.threshold ≡ threshold }
    ensures summary { result.summary.now ≡ summary.now }
    ensures from { result.from ≡ 0 }
{
    LayersLeft {
        n,
        threshold,
        summary,
        from: 0,
    }
}

impl<'a> Iterator for LayersLeft<'a> {
    type Item = usize;

    ghost next_gives = { λ s x t. LayerGiven s.n s.threshold s.summary.now s.from x t.n t.threshold t.summary.now t.from };

    ghost remaining = { λ s. at_most (s.n - s.from) };

    fn next(&mut self) -> Option<usize> {
        let x = next_layer(self.n, self.threshold, self.summary, self.from);
        if x == self.n {
            return None;
        }
        self.from = x + 1;
        Some(x)
    }
}
