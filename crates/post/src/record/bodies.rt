// Letters into records and out again.
ghost use Rattle.std.specs.Prelude.{◌≡◌, ◌≤◌, [], ◌∷◌, length};
ghost use Rattle.post.specs.Queues.{written};
ghost use Rattle.post.specs.Records.{letter_in, blank, Fitted};

use crate::{Full, Letter, LetterSets, Record, Taken};

impl Record {
    // A record to make memory of.
    pub fn blank() -> Record
        ensures { letter_in result ≡ blank }
    {
        Record {
            sets: LetterSets::default(),
            len: 0,
            body: [0; 16],
        }
    }

    pub fn sets(&self) -> LetterSets
        ensures { result ≡ (letter_in self.now).sets }
    {
        self.sets
    }

    pub fn body(&self) -> &[u8]
        ensures { result.now ≡ (letter_in self.now).body }
    {
        &self.body[..usize::from(self.len)]
    }

    pub fn body_len(&self) -> u8
        ensures { result ≡ length (letter_in self.now).body }
    {
        self.len
    }

    // The body goes to the front of the buffer.
    pub(crate) fn read(&self, buffer: &mut [u8]) -> Taken
        requires { 16 ≤ length buffer.old }
        ensures answer { result ≡ record { sets = (letter_in self.now).sets; len = length (letter_in self.now).body } }
        ensures body { buffer.new ≡ written (letter_in self.now ∷ []) buffer.old }
    {
        let body = self.body();
        buffer[..body.len()].copy_from_slice(body);
        Taken {
            sets: self.sets(),
            len: self.body_len(),
        }
    }
}

// A body over 16 bytes is refused.
impl TryFrom<Letter<'_>> for Record {
    type Error = Full;

    ghost try_from_gives = { λ letter r. Fitted (record { sets = letter.sets; body = letter.body.now }) r };

    fn try_from(letter: Letter<'_>) -> Result<Record, Full> {
        let len = u8::try_from(letter.body.len()).map_err(|_| Full)?;
        if len > 16 {
            return Err(Full);
        }
        let mut body = [0; 16];
        body[..usize::from(len)].copy_from_slice(letter.body);
        Ok(Record {
            sets: letter.sets,
            len,
            body,
        })
    }
}
