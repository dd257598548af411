// The triangles' corners, renumbered by the table of a window of vertices.
ghost use Rattle.std.specs.Prelude.{◌≡◌, map, ◌+◌, ◌≤◌, length};
ghost use Rattle.weld.specs.Leaves.{corner_by};

fn corner(table: &[u32], start: usize, end: usize, c: u32) -> u32
    requires { end ≤ start + length table.now }
    ensures { result ≡ corner_by table.now start end c }
{
    let at = c as usize;
    if (start..end).contains(&at) {
        table[at - start]
    } else {
        c
    }
}

pub fn renumber(table: &[u32], start: usize, end: usize, triangles: &mut [u32])
    requires { end ≤ start + length table.now }
    ensures { triangles.new ≡ map (corner_by table.now start end) triangles.old }
{
    for place in triangles.iter_mut() {
        *place = corner(table, start, end, *place);
    }
}
