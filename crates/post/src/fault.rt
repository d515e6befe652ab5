// Why a post cannot be made.
ghost use Rattle.std.specs.Prelude.{◌≡◌};
ghost use Rattle.post.specs.Memory.{number, checked};

#[derive(Clone, Copy, PartialEq, Eq, Debug)]
pub enum PostFault {
    TooLittleMemory,
}

// The number under which the refusal is listed.
impl From<PostFault> for u8 {
    ghost from_gives = { λ fault code. code ≡ number fault };

    fn from(fault: PostFault) -> u8 {
        match fault {
            PostFault::TooLittleMemory => 1,
        }
    }
}

// Whether so much memory is as much as is needed.
pub fn check_size(size: usize, needed: usize) -> Result<(), PostFault>
    ensures { result ≡ checked size needed }
{
    if size < needed {
        return Err(PostFault::TooLittleMemory);
    }
    Ok(())
}
