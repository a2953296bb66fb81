//! Lines in from standard input, replies out to standard output.
use listings::partial::PartialLine;
use std::alloc::Global;
use std::io;
use std::io::{BufRead, BufReader, BufWriter, Stdin, Stdout, Write};

/// How many bytes are read at once, and how many replies wait to be written.
const CHUNK: usize = 65536;

/// What is read and not yet used, and the replies that are not yet written.
#[derive(Drop)]
pub struct Terminal {
    input: BufReader<Stdin>,
    output: BufWriter<Stdout>,
}

impl Terminal {
    pub fn new(input: Stdin, output: Stdout, heap: Global) -> io::Result<Terminal> {
        Ok(Terminal {
            input: BufReader::with_capacity(heap, CHUNK, input)?,
            output: BufWriter::with_capacity(heap, CHUNK, output)?,
        })
    }

    /// Writes the replies that are waiting.
    pub fn flush(&mut self) -> io::Result<()> {
        self.output.flush()
    }

    /// The bytes at hand, or more from the input where there are none: none at its end. Replies go out before more is read, since the input may pause for long.
    fn at_hand(&mut self) -> io::Result<&[u8]> {
        if self.input.buffer().is_empty() {
            self.flush()?;
        }
        self.input.fill_buf()
    }

    /// The next line without its line feed, or `None` where no byte is left. The last line may end with the input.
    pub fn line(&mut self) -> io::Result<Option<PartialLine>> {
        let mut line = PartialLine::new();
        // Counted, since a line may have no end and every loop has one.
        for _ in 0..u64::MAX {
            let bytes = self.at_hand()?;
            let read = bytes.len();
            if read == 0 {
                break;
            }
            // In one pass, which keeps each byte on its way to the line feed.
            let end = bytes.iter().position(|byte| {
                let ends = *byte == b'\n';
                if !ends {
                    line.push(*byte);
                }
                ends
            });
            if let Some(at) = end {
                self.input.consume(at + 1);
                return Ok(Some(line));
            }
            self.input.consume(read);
        }
        Ok((!line.is_empty()).then_some(line))
    }

    /// Keeps a reply to be written.
    pub fn reply(&mut self, bytes: &[u8]) -> io::Result<()> {
        self.output.write_all(bytes)
    }
}
