//! The form of a profile's images.

ghost use Rattle.std.specs.Prelude.{◌≡◌};
ghost use Rattle.mal_freeze.specs.Forms.{form_of, profile_named};

use mal_base::Profile;

/// The first 8 bytes of a profile's images, as one number, and whether the conflicts since the last dropping stand in
/// them.
#[derive(Clone, Copy)]
pub struct Form {
    pub magic: u64,
    pub counts: bool,
}

impl Form {
    /// The form of the images of this profile.
    pub fn of(profile: Profile) -> Form
        ensures { result ≡ form_of profile }
    {
        match profile {
            // MALNODE1
            Profile::Plain => Form {
                magic: 0x4d41_4c4e_4f44_4531,
                counts: false,
            },
            // MALNODE2
            Profile::Lean => Form {
                magic: 0x4d41_4c4e_4f44_4532,
                counts: true,
            },
        }
    }
}

/// The profile whose images begin with this number. None exactly where there is none.
pub fn profile_named(magic: u64) -> Option<Profile>
    ensures { result ≡ profile_named magic }
{
    if magic == Form::of(Profile::Plain).magic {
        return Some(Profile::Plain);
    }
    if magic == Form::of(Profile::Lean).magic {
        return Some(Profile::Lean);
    }
    None
}
