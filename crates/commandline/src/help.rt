// What --help prints.
pub const HELP: &str = "pearrummy COMMAND [OPTION..] FILE [VALUE..]

  check      is the model in order, and what does its row system need?
  translate  the words of a model's row system, one a line
  rows       a row system, or that of a model, for reading
  sheet      the same as the printed sheet, in lines of 80 columns
  judge      do the values keep all bounds, and is every constraint, or row, true of them?
  fill       the values of a model's variables, then those of the auxiliaries
  reason     the first row that values of variables and auxiliaries fail, and the constraint behind it
  solutions  every solution of a model of at most 8 variables and 65,536 value lists, one a line
  bits       the words of the quadratic form over bits of a row system, or of a model
  text       the words of a FlatZinc text

FILE holds FlatZinc text where its name ends in .fzn, a MiniZinc model where it ends in .mzn and MiniZinc is installed, bytes, four to a word, the
lowest first, where it ends in .bin, else hexadecimal words of eight digits with # comments; - is standard input. A VALUE is a number, or
NAME=NUMBER where variables have names, as many as there are variables. Answers name the variables and lines of a MiniZinc model, which is flattened
by `minizinc --solver rows.msc --no-half-reifications --keep-paths`.

  --text, --hex, --bytes   how FILE is read, whatever its name
  --model, --rows          what its words are; else a row system is what ends in F0000000
  --candidate 1|2          the words are of two candidates over one variable table; the command works on the model of one
  --values FILE            the values stand in FILE, with blanks between them
  --data FILE              data of a MiniZinc model
  --out-bytes              words are written as bytes, the lowest first
  --json                   the answer as one line of JSON
  --help, --version

Exit status: 0 holds or done, 1 false or out of bounds, 2 refused, 64 wrong usage, a file that cannot be read or an answer that cannot be written.

What is proved: every answer, row and value comes from a library whose calls are proved to give what their definitions say. What is not: this
command around it, which reads the file, looks up names and lines in a text, and prints; and MiniZinc with its library and script.
";
