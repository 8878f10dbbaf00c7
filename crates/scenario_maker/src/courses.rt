//! Where the flights of a made day go, and when.
ghost use Rattle.std.specs.Prelude.{◌≡◌, ◌<◌};
ghost use Rattle.scenario_maker.specs.Courses.{course_back, course_from, course_of, course_out, first_sector, second_sector, third_sector};

/// Where a flight goes, and when it is to depart.
#[derive(Clone, Copy)]
pub struct Course {
    /// The airports, by their numbers.
    pub from: u32,
    pub to: u32,
    pub departs: u32,
}

/// The course of the flight of this number.
pub fn course_of(i: u32) -> Course
    requires { i < 2000 }
    ensures is { result ≡ course_of i }
    ensures from { result.from < 6 }
    ensures to { result.to < 6 }
    ensures departs { result.departs < 70 }
{
    let three = i / 3;
    match i % 3 {
        0 => course_from(three, three % 6, 7 * three % 60),
        1 => course_out(three),
        _ => course_back(course_out(three)),
    }
}

// The course of a flight from the airport.
fn course_from(three: u32, airport: u32, departs: u32) -> Course
    requires { airport < 6 }
    ensures is { result ≡ course_from three airport departs }
    ensures to { result.to < 6 }
{
    Course {
        from: airport,
        to: (airport + 1 + three % 5) % 6,
        departs,
    }
}

// The course of a flight out.
fn course_out(three: u32) -> Course
    requires { three < 2000 }
    ensures is { result ≡ course_out three }
    ensures from { result.from < 6 }
    ensures to { result.to < 6 }
    ensures departs { result.departs < 60 }
{
    course_from(three, (three + 2) % 6, (7 * three + 3) % 60)
}

// The course back of a flight out.
fn course_back(out: Course) -> Course
    requires { out.departs < 60 }
    ensures { result ≡ course_back out }
{
    Course {
        from: out.to,
        to: out.from,
        departs: out.departs + 7,
    }
}

/// The sector that a flight enters first.
pub fn first_sector(i: u32, course: Course) -> u32
    requires course { course ≡ course_of i }
    requires from { course.from < 6 }
    requires to { course.to < 6 }
    requires small { i < 2000 }
    ensures is { result ≡ first_sector i }
    ensures small { result < 10 }
{
    (course.from + 2 * course.to + i) % 10
}

/// The sector that follows.
pub fn second_sector(i: u32, course: Course) -> u32
    requires course { course ≡ course_of i }
    requires from { course.from < 6 }
    requires to { course.to < 6 }
    requires small { i < 2000 }
    ensures is { result ≡ second_sector i }
    ensures small { result < 10 }
{
    (first_sector(i, course) + 1 + i % 4) % 10
}

/// The sector that follows on the other way.
pub fn third_sector(i: u32, course: Course) -> u32
    requires course { course ≡ course_of i }
    requires from { course.from < 6 }
    requires to { course.to < 6 }
    requires small { i < 2000 }
    ensures is { result ≡ third_sector i }
    ensures small { result < 10 }
{
    (first_sector(i, course) + 5 + i % 4) % 10
}
