// Document 01, 'What is bought': the vertex between two grid points. Each operation is rounded once, in the order written.
ghost use Rattle.std.specs.Prelude.{◌≡◌};
ghost use Rattle.model.specs.Formulas as Formulas;

use model::{GridPoint, Vector, Vertex};

// The weight toward b.
pub(crate) fn weight(a: f32, b: f32, threshold: f32) -> f32
    ensures { result ≡ Formulas.weight a b threshold }
{
    (threshold - a) / (b - a)
}

fn between(w: f32, a: f32, b: f32) -> f32
    ensures { result ≡ Formulas.between w a b }
{
    a + w * (b - a)
}

pub(crate) fn between_vectors(w: f32, a: Vector, b: Vector) -> Vector
    ensures { result ≡ Formulas.between_vectors w a b }
{
    Vector {
        x: between(w, a.x, b.x),
        y: between(w, a.y, b.y),
        z: between(w, a.z, b.z),
    }
}

pub fn vertex_between(threshold: f32, a: GridPoint, b: GridPoint) -> Vertex
    ensures { result ≡ Formulas.vertex_between threshold a b }
{
    let w = weight(a.sample, b.sample, threshold);
    let position = between_vectors(w, a.position, b.position);
    let gradient = between_vectors(w, a.gradient, b.gradient);
    Vertex { position, gradient }
}
