//! What is counted of the jobs of a hall.

ghost use Rattle.std.specs.Prelude.{◌≡◌, ◌+◌, ◌<◌, ◌≤◌, ◌^◌};
ghost use Rattle.mal_seats.specs.Counted.{AreRecounted, IsAmong, no_marks, one};

/// Whether a job was changed so that a balancing is due, and whether it is not closed or not answered.
#[derive(Clone, Copy)]
pub struct Marks {
    pub changed: bool,
    pub unfinished: bool,
}

impl Marks {
    /// No mark.
    fn none() -> Marks
        ensures { result ≡ no_marks }
    {
        Marks {
            changed: false,
            unfinished: false,
        }
    }
}

/// How many jobs have each mark.
#[derive(Clone, Copy)]
pub struct Counts {
    pub changed: usize,
    pub unfinished: usize,
}

impl Counts {
    /// Counts a job anew that had the first marks and now has the others.
    pub fn change(&mut self, before: Marks, after: Marks)
        requires { IsAmong before self.old }
        ensures { AreRecounted before after self.old self.new }
    {
        self.changed = recounted(self.changed, before.changed, after.changed);
        self.unfinished = recounted(self.unfinished, before.unfinished, after.unfinished);
    }

    /// Counts one job more, which has these marks.
    pub fn add(&mut self, marks: Marks)
        requires { IsAmong no_marks self.old }
        ensures { AreRecounted no_marks marks self.old self.new }
    {
        self.change(Marks::none(), marks);
    }

    /// Counts one job less, which had these marks.
    pub fn take_away(&mut self, marks: Marks)
        requires { IsAmong marks self.old }
        ensures { AreRecounted marks no_marks self.old self.new }
    {
        self.change(marks, Marks::none());
    }
}

/// A count of jobs after one of them was counted or not, and now is or not.
fn recounted(count: usize, before: bool, after: bool) -> usize
    requires counted { one before ≤ count }
    requires room { count < 2 ^ 63 }
    ensures { result + one before ≡ count + one after }
{
    if before {
        if after {
            return count;
        }
        return count - 1;
    }
    if after {
        return count + 1;
    }
    count
}
