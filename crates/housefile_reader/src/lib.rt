// The reader: one walk over a file's records, which keeps as much as an admitted solid can have; then the checks; then the lent lists.
#![tactic(auto)]

ghost use Rattle.std.specs.Prelude.{◌≡◌, [], ◌∷◌, ◌+◌, ◌≤◌, ◌<◌, ◌^◌, length, OnOk};
ghost use Rattle.points.specs.Points.{coordinates};
ghost use Rattle.solids.specs.Solids as So;
ghost use Rattle.housefile.specs.Records as Rc;
ghost use Rattle.housefile.specs.Reader as Re;
ghost use Rattle.housefile_reader.specs.Words as Hr;

use housefile::{Read, Record};
use points::Point;
use solids::{Answer, Refusal, Verdict};

// How far a reader has walked over a file's records: the bytes walked over and how many vertices and facets stood there.
#[derive(Clone, Copy)]
pub struct Walk {
    pub used: usize,
    pub vertices: usize,
    pub facets: usize,
}

impl Walk {
    // The walk, one record further. "All VX come before all FC", so there is none past a vertex behind a facet.
    #[tactic(auto, unfolding(crate::specs::Words::stepped))]
    fn past(self, found: Record) -> Option<Walk>
        requires { (self.vertices ≤ self.used) × (self.facets ≤ self.used) × (self.used + Rc.size found < 2 ^ 64) }
        ensures { result ≡ Hr.stepped found self }
    {
        match found {
            Record::Vx(_) if self.facets > 0 => None,
            Record::Vx(_) => Some(Walk {
                used: self.used + 26,
                vertices: self.vertices + 1,
                ..self
            }),
            Record::Fc(..) => Some(Walk {
                used: self.used + 14,
                facets: self.facets + 1,
                ..self
            }),
            Record::En => Some(Walk {
                used: self.used + 2,
                ..self
            }),
        }
    }

    // 2: more than an admitted solid has. Not all of that is kept, and these numbers tell it.
    pub fn check_sizes(self) -> Verdict
        ensures said { result ≡ Hr.check_many self }
        ensures few { OnOk result ((self.vertices ≤ 128) × (self.facets ≤ 256)) }
    {
        if self.vertices > 128 || self.facets > 256 {
            return Err(Refusal::TooMany.on_solid(0));
        }
        Ok(())
    }
}

fn keep_vertex(points: &mut [f64; 384], i: usize, v: Point)
    ensures { points.new ≡ Hr.kept 128 i (coordinates v) points.old }
{
    if i < 128 {
        list_stores::put_point(v, points, 3 * i);
    }
}

fn keep_facet(corners: &mut [u32; 768], f: usize, p: u32, q: u32, r: u32)
    ensures { corners.new ≡ Hr.kept 256 f (p ∷ q ∷ r ∷ []) corners.old }
{
    if f < 256 {
        list_stores::put_three(p, q, r, corners, 3 * f);
    }
}

// What a record says, kept where the walk stands.
#[tactic(auto, using(crate::proofs::Kept::kept_nothing))]
fn keep(found: Record, w: Walk, points: &mut [f64; 384], corners: &mut [u32; 768])
    ensures points_after { points.new ≡ Hr.kept 128 w.vertices (Hr.points_of found) points.old }
    ensures corners_after { corners.new ≡ Hr.kept 256 w.facets (Hr.corners_of found) corners.old }
{
    match found {
        Record::Vx(v) => keep_vertex(points, w.vertices, v),
        Record::Fc(p, q, r) => keep_facet(corners, w.facets, p, q, r),
        Record::En => {}
    }
}

// The whole layout: "each record begins where the one before it ended". `None` where it is broken.
pub fn scan(bytes: &[u8], points: &mut [f64; 384], corners: &mut [u32; 768]) -> Option<Walk>
    requires { (length points.old ≡ 384) × (length corners.old ≡ 768) }
    ensures scanned { Hr.Scanned (Re.layout bytes.now) result points.new corners.new }
    ensures points_len { (length points.new ≡ 384) × (length corners.new ≡ 768) }
{
    let mut w = Walk {
        used: 0,
        vertices: 0,
        facets: 0,
    };
    loop {
        let found = housefile_records::decode(&bytes[w.used..])?;
        keep(found, w, points, corners);
        w = w.past(found)?;
        if let Record::En = found {
            return Some(w);
        }
    }
}

// The checks 3 to 6 on a solid of whole threes, few enough; then, in the fronts of the lent lists, the solid.
fn hand_over(
    from_points: &[f64],
    from_corners: &[u32],
    used: usize,
    points: &mut [f64],
    corners: &mut [u32],
) -> Result<Read, Answer>
    requires { (length from_points.now ≤ length points.old) × (length from_corners.now ≤ length corners.old) }
    ensures { Re.outcome (Hr.answered result) points.new corners.new ≡ Hr.handed_over (So.lent from_points.entry from_corners.entry) used points.old corners.old }
{
    admission::admit(from_points, from_corners)?;
    list_stores::copy_front(from_points, points);
    list_stores::copy_front(from_corners, corners);
    Ok(Read {
        answer: Answer::SUCCESS,
        vertices: from_points.len() / 3,
        facets: from_corners.len() / 3,
        used,
    })
}

// The checks 9, 2, 8, then 3 to 6; the lent lists stay as they are before all have passed.
fn checked(bytes: &[u8], points: &mut [f64], corners: &mut [u32]) -> Result<Read, Answer>
    ensures { Re.outcome (Hr.answered result) points.new corners.new ≡ Re.read bytes.now points.old corners.old }
{
    // Arrays of the most that may be kept, since the library takes no memory from the heap.
    let mut kept_points = [0.0f64; 384];
    let mut kept_corners = [0u32; 768];
    let Some(w) = scan(bytes, &mut kept_points, &mut kept_corners) else {
        return Err(Refusal::NoLayout.on_nobody());
    };
    w.check_sizes()?;
    let n = 3 * w.vertices;
    let m = 3 * w.facets;
    if points.len() < n || corners.len() < m {
        return Err(Refusal::TooShort.on_nobody());
    }
    hand_over(
        &kept_points[..n],
        &kept_corners[..m],
        w.used,
        points,
        corners,
    )
}

pub fn read(bytes: &[u8], points: &mut [f64], corners: &mut [u32]) -> Read
    ensures { Re.ReadFile bytes.now points.old corners.old (result, (points.new, corners.new)) }
{
    checked(bytes, points, corners).unwrap_or_else(Read::from)
}
